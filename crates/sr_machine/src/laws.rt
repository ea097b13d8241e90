//! What the definitions mean.

ghost use Rattle.std.specs.Prelude.{◌≡◌, ℕ, ◌<◌, ◌≤◌, Some, if◌then◌else◌};
ghost use Rattle.sr_base.specs.Key.{IsKey, KeyView};
ghost use Rattle.sr_base.specs.Layout.{IsLayout, LayoutView};
ghost use Rattle.sr_base.specs.RingWord.{IsRingWord, packed_ring};
ghost use Rattle.sr_base.specs.RowHead.{IsRowHead, packed_head};
ghost use Rattle.sr_base.specs.VipWord.{IsVipWord, packed_vip};
ghost use Rattle.sr_base.specs.declared.place.Place.{Place};
ghost use Rattle.sr_base.specs.declared.ring_word.RingWord.{RingWord};
ghost use Rattle.sr_base.specs.declared.row_head.RowHead.{RowHead};
ghost use Rattle.sr_base.specs.declared.vip_word.VipWord.{VipWord};
ghost use Rattle.sr_base.specs.declared.word_name.WordName.{WordName};
ghost use Rattle.sr_machine.specs.Begins.{Begins};
ghost use Rattle.sr_machine.specs.Bounds.{PacketsEnd, TurnsAreShort, TurnsEnd};
ghost use Rattle.sr_machine.specs.Config.{Config};
ghost use Rattle.sr_machine.specs.Core.{Core, Reaches, step_event};
ghost use Rattle.sr_machine.specs.Goes.{Goes};
ghost use Rattle.sr_machine.specs.Jobs.{job_next};
ghost use Rattle.sr_machine.specs.Names.{name_for, word_name};
ghost use Rattle.sr_machine.specs.Reads.{live_word, read_head, read_report, read_vip, reserved_word, says, stands_for};
ghost use Rattle.sr_machine.specs.Starting.{first_act};
ghost use Rattle.sr_machine.specs.declared.controller_view.ControllerView.{ControllerView};
ghost use Rattle.sr_machine.specs.declared.event.Event.{Event as AnEvent};
ghost use Rattle.sr_machine.specs.declared.job.Job.{Job as AJob};
ghost use Rattle.sr_machine.specs.declared.name.Name.{Name as AName};
ghost use Rattle.sr_machine.specs.declared.said.Said.TheVariants as said;

/// A law: a packet is out after 25 steps at most, whatever they answer.
pub fn packets_end()
    ensures { PacketsEnd }
{}

/// A law: a turn of the controller makes at most 4 steps, or as many as there are pipes; and it ends within these, whatever they
/// answer.
pub fn turns_end()
    ensures short { TurnsAreShort }
    ensures end { TurnsEnd }
{}

/// A law: what a free controller begins is one of a list of cases, and so is the job after a step; each case says why it is that
/// one.
pub fn acts_have_cases()
    ensures begun { (k : Config) (c : ControllerView) → Begins k c (first_act k c) }
    ensures next { (k : Config) (c : ControllerView) (x : ℕ) (j : AJob) → Goes k c x j (job_next k c j x) }
{}

/// A law: what a machine was made for stays so, and a run goes on by each event that can be made.
pub fn runs_go_on()
    ensures config { (k : Config) (s : Core) → Reaches k s → s.config ≡ k }
    ensures more { (k : Config) (s t : Core) (e : AnEvent) → Reaches k s → step_event e s ≡ Some t → Reaches k t }
{}

/// A law: each word of a layout has one name here, and each name here is that of one word.
pub fn names_agree()
    ensures there { (at : WordName) → word_name (name_for at) ≡ at }
    ensures back { (name : AName) → name_for (word_name name) ≡ name }
{}

/// A law: what is written is read. A live entry tells its version to each key that it is taken for, and nothing to any other; so
/// does a reserved one, and an empty place tells nothing; heads, virtual addresses' words and reports are read as they were
/// written.
pub fn words_are_read()
    ensures live { (l : LayoutView) → IsLayout l → (place : Place) (key other : KeyView) (version : ℕ)
        → IsKey key → version < l.shape.versions
        → says l place other (live_word l place key version)
        ≡ (if stands_for l place key other then said.Live version else said.Nothing) }
    ensures reserved { (l : LayoutView) → IsLayout l → (place : Place) (key other : KeyView) → IsKey key
        → says l place other (reserved_word l place key)
        ≡ (if stands_for l place key other then said.Reserved else said.Nothing) }
    ensures empty { (l : LayoutView) (place : Place) (other : KeyView) → says l place other 0 ≡ said.Nothing }
    ensures vip { (l : LayoutView) (w : VipWord) → IsVipWord w → w.cur < l.shape.versions → w.next < l.shape.versions
        → read_vip l (packed_vip w) ≡ w }
    ensures head { (l : LayoutView) (h : RowHead) → IsRowHead h → h.size ≤ l.shape.pool_max → read_head l (packed_head h) ≡ h }
    ensures report { (l : LayoutView) (w : RingWord) → IsRingWord w → w.key.vip < l.vips
        → read_report l (packed_ring w) ≡ Some w }
{}
