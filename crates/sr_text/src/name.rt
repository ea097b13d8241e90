ghost use Rattle.std.specs.Prelude.{◌≡◌, option_map};
ghost use Rattle.sr_text.specs.Fronts.{change_name_front, name_front};

use crate::word::after_word;

/// The word that a line begins with.
#[derive(Clone, Copy, Debug, PartialEq, Eq)]
pub(crate) enum Name {
    Packet,
    Answer,
    Give,
    Record,
    Hold,
    Switch,
    Finish,
    Down,
    Reserve,
    Place,
    Clear,
    Sweep,
    Retire,
    Refuse,
}

/// A line's name, and what follows it and a space.
#[tactic(auto, unfolding(crate::specs::Fronts::name_front))]
pub(crate) fn name_front(bytes: &[u8]) -> Option<(Name, &[u8])>
    ensures { option_map (λ x. (x.0, x.1.now)) result ≡ name_front bytes.now }
{
    if let Some(rest) = after_word(b"packet ", bytes) {
        return Some((Name::Packet, rest));
    }
    if let Some(rest) = after_word(b"answer ", bytes) {
        return Some((Name::Answer, rest));
    }
    if let Some(rest) = after_word(b"reserve ", bytes) {
        return Some((Name::Reserve, rest));
    }
    if let Some(rest) = after_word(b"place ", bytes) {
        return Some((Name::Place, rest));
    }
    if let Some(rest) = after_word(b"clear ", bytes) {
        return Some((Name::Clear, rest));
    }
    if let Some(rest) = after_word(b"retire ", bytes) {
        return Some((Name::Retire, rest));
    }
    if let Some(rest) = after_word(b"sweep ", bytes) {
        return Some((Name::Sweep, rest));
    }
    change_name_front(bytes)
}

// The name of a line of the controller's changes.
#[tactic(auto, unfolding(crate::specs::Fronts::change_name_front))]
fn change_name_front(bytes: &[u8]) -> Option<(Name, &[u8])>
    ensures { option_map (λ x. (x.0, x.1.now)) result ≡ change_name_front bytes.now }
{
    if let Some(rest) = after_word(b"give ", bytes) {
        return Some((Name::Give, rest));
    }
    if let Some(rest) = after_word(b"record ", bytes) {
        return Some((Name::Record, rest));
    }
    if let Some(rest) = after_word(b"hold ", bytes) {
        return Some((Name::Hold, rest));
    }
    if let Some(rest) = after_word(b"switch ", bytes) {
        return Some((Name::Switch, rest));
    }
    if let Some(rest) = after_word(b"finish ", bytes) {
        return Some((Name::Finish, rest));
    }
    if let Some(rest) = after_word(b"down ", bytes) {
        return Some((Name::Down, rest));
    }
    let rest = after_word(b"refuse ", bytes)?;
    Some((Name::Refuse, rest))
}
