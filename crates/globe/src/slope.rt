// The angle from 0 to 90 degrees whose sine is to its cosine as one size is to another: 13 turns for its row in the table of sines, 18 in
// it. What has failed at an angle fails at every later one, so each turn halves what is left.
ghost use Rattle.std.specs.Prelude.{◌≡◌, ◌+◌, ◌≤◌, ◌<◌};
ghost use Rattle.sines.specs.Table.{unit};
ghost use Rattle.sines.specs.Rules.{rows};
ghost use Rattle.sines.specs.Sine.{step};
ghost use Rattle.sines.specs.Slope.{slope_of};
ghost use Rattle.sines.specs.SlopeLaws.{most_size};
ghost use Rattle.sines.specs.SlopeRows.{row_reaches, slope_row, share_of};

use crate::lookup::{QUARTER, ROWS, SHORTENING, STEP};
use crate::search::last;
use sines::entry;

// The short sine `f` ticks past an entry, the next one `gap` higher.
fn share(low: u64, gap: u64, f: u64) -> u64
    requires gap_bound { low + gap ≤ unit }
    requires f_le_step { f ≤ step }
    ensures { result ≡ share_of low gap f }
{
    (low + f * gap / STEP) / SHORTENING
}

// The sizes of D and of N, each a difference of two short sines at most.
#[derive(Clone, Copy)]
pub(crate) struct Sizes {
    pub(crate) d: u64,
    pub(crate) n: u64,
    ghost d_le_most_size: { d ≤ most_size },
    ghost n_le_most_size: { n ≤ most_size },
}

impl Sizes {
    // The test at a row's first angle. Each product is at most 2 × 10^18.
    #[tactic(auto, using(sines::proofs::Rules::entry_top, sines::proofs::SlopeRows::row_test, sines::proofs::SlopeRows::short_product))]
    fn row_reaches(self, k: usize) -> bool
        requires { k ≤ rows }
        ensures { result ≡ row_reaches self.d self.n k }
    {
        // k itself; so the compiler sees that both entries are there, and needs no branch to look
        let k = k.min(ROWS);
        entry(k) / SHORTENING * self.d <= entry(ROWS - k) / SHORTENING * self.n
    }

    // The last row at whose first angle the short sine × `d` is at most the short cosine × `n`.
    #[tactic(auto, using(sines::proofs::Halving::last, sines::proofs::SlopeLaws::at_zero, sines::proofs::SlopeRows::row_falls), unfolding(sines::specs::SlopeRows::slope_row))]
    fn last_row(self) -> usize
        ensures { result ≡ slope_row self.d self.n }
    {
        last(ROWS + 1, |k| self.row_reaches(k))
    }

    // The last angle of row `k`. The cosine runs down the mirrored row.
    #[tactic(auto, using(sines::proofs::SlopeRows::rise_top, sines::proofs::SlopeRows::mirror, sines::proofs::SlopeRows::mirror_next, sines::proofs::SlopeRows::share_top))]
    fn in_row(self, k: usize) -> u32
        requires k_value { k ≡ slope_row self.d self.n }
        requires k_lt_rows { k < rows }
        ensures { result ≡ slope_of self.d self.n }
    {
        let sine = entry(k);
        let rise = entry(k + 1) - sine;
        let cosine = entry(ROWS - k - 1);
        let fall = entry(ROWS - k) - cosine;
        let f = last(STEP as usize, |f| {
            share(sine, rise, f as u64) * self.d <= share(cosine, fall, STEP - f as u64) * self.n
        });
        (k as u64 * STEP + f as u64) as u32
    }

    #[tactic(auto, using(sines::proofs::SlopeRows::row_top, sines::proofs::SlopeRows::row_quarter))]
    pub(crate) fn slope(self) -> u32
        ensures { result ≡ slope_of self.d self.n }
    {
        let k = self.last_row();
        if k == ROWS {
            return QUARTER;
        }
        self.in_row(k)
    }
}
