// A target that is accepted. A clause sees its millimetres.
ghost use Rattle.std.specs.Prelude.{◌≡◌, Option, ℕ};
ghost use Rattle.refusals.specs.Choice.{fine, answered};
ghost use Rattle.writer.specs.RouteText.{target_refusal};
ghost use Rattle.writer.specs.TextSteps.{metres_of};

use globe::MOST_TARGET;
use refusals::Refusal;
use route::METRE;
use std::marker::Model;

#[derive(Drop)]
pub(crate) struct Target {
    millimetres: Option<u64>,
}

impl Model for Target {
    ghost Value = { Option ℕ };

    ghost view = { λ t. t.millimetres };

    ghost invariant = { λ t. target_refusal t.millimetres ≡ fine };
}

impl Target {
    #[tactic(auto, unfolding(crate::specs::RouteText::target_refusal))]
    pub(crate) fn new(target: Option<u64>) -> Result<Target, Refusal>
        ensures { result ≡ answered (target_refusal target) target }
    {
        if let Some(millimetres) = target {
            if (millimetres % METRE != 0) | (MOST_TARGET < millimetres) {
                return Err(Refusal::Target);
            }
        }
        Ok(Target {
            millimetres: target,
        })
    }

    #[tactic(auto, using(crate::proofs::RouteTextLaws::target_accepted))]
    pub(crate) fn metres(&self) -> Option<i32>
        ensures number { result ≡ metres_of self.now }
        ensures accepted { target_refusal self.now ≡ fine }
    {
        let millimetres = self.millimetres?;
        Some((millimetres / METRE) as i32)
    }
}
