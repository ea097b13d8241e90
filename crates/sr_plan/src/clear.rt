ghost use Rattle.std.specs.Prelude.{◌≡◌, option_copied};
ghost use Rattle.sr_shadow.specs.Plan.{is_clear_but};
ghost use Rattle.sr_plan.specs.Clear.{mistaken_one};
ghost use Rattle.sr_shadow.specs.Moves.{NonePlaced};

use sr_base::{Key, Layout};
use sr_shadow::{Entry, IndexedBook, indexed_book_rules, is_mistaken};

// Whether the key's packets are taken for those of no entry but, perhaps, that of one other key. Those that they are taken for stand in slots and
// clash with the key there; the key itself stands nowhere.
pub(crate) fn is_clear_but(indexed: &IndexedBook, layout: &Layout, key: Key, other: Key) -> bool
    requires made { indexed.now.layout ≡ layout.now }
    requires unplaced { NonePlaced key indexed.now.book.entries }
    ensures { result ≡ is_clear_but layout.now.shape indexed.now.book.entries key other }
{
    indexed_book_rules(indexed);
    let standing = indexed.standing(1, key) as u128 + indexed.standing(2, key) as u128;
    standing == mistaken_one(layout, key, indexed.get(other)) as u128
}

// 1 for an entry that the key's packets are taken for, else 0.
fn mistaken_one(layout: &Layout, key: Key, entry: Option<&Entry>) -> u64
    ensures { result ≡ mistaken_one layout.now.shape key (option_copied entry.entry) }
{
    match entry {
        Some(entry) => {
            if is_mistaken(layout, key, entry) {
                1
            } else {
                0
            }
        }
        None => 0,
    }
}
