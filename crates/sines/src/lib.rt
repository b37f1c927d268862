// The table of 4,501 sines. What the crates above do with it is defined and proved in specs/.
#![tactic(auto)]

ghost use Rattle.std.specs.Prelude.{◌≡◌};
ghost use Rattle.sines.specs.Table.{sines, entry};

mod table;

use table::SINES;

pub type Entries = [u64; 4501];

fn the_table() -> &'static Entries
    ensures { result.now ≡ sines }
{
    &SINES
}

// A copy of the whole table.
pub fn table_of_sines() -> Entries
    ensures { result ≡ sines }
{
    *the_table()
}

// Entry `k`, and 0 past the last one.
#[tactic(auto, unfolding(crate::specs::Table::entry))]
pub fn entry(k: usize) -> u64
    ensures { result ≡ entry k }
{
    the_table().get(k).copied().unwrap_or(0)
}
