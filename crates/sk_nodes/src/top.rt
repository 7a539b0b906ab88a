//! Where what a node still gives begins, and how much it can weigh.
ghost use Rattle.std.specs.Prelude.{◌≡◌, ◌≤◌, ◌<◌, ◌^◌};
ghost use Rattle.sk_model.specs.Weights.{weigh_by};
ghost use Rattle.sk_index.specs.Indexed.{Indexed};
ghost use Rattle.sk_nodes.specs.Shapes.{Shape, synonym};
ghost use Rattle.sk_nodes.specs.Sound.{IsTop};

use sk_base::{Scheme, Weight};
use sk_decay::Head;
use sk_weight::weigh_by;

/// The head of a node that has ended: no id is so great.
pub const END: Head = 4_294_967_296;

/// What is kept of a node beside it: its first id, the weight there, and a weight that none is above. At the end the id
/// is `END`, and both weights are 0.
#[derive(Clone, Copy, Debug)]
pub struct Top {
    pub head: Head,
    pub weight: Weight,
    pub greatest: Weight,
}

impl Top {
    /// Of a node that gives nothing.
    pub fn ended() -> Top
        ensures { result ≡ record { head = 2 ^ 32; weight = 0; greatest = 0 } }
    {
        Top {
            head: END,
            weight: 0,
            greatest: 0,
        }
    }

    /// Writes where the weights begin of a node's wdfs, whose top this is.
    #[inline(always)]
    pub(crate) fn weigh(&self, scheme: Scheme, factor: u64, top: &mut Top)
        requires factor { factor ≤ 65536 }
        requires within { self.now.weight ≤ self.now.greatest }
        requires small { self.now.greatest < 2 ^ 29 }
        ensures top { (i : Indexed) (s : Shape) → IsTop i self.now s → IsTop i top.new (synonym scheme factor self.now s) }
        ensures bound { top.new.greatest ≤ weigh_by factor scheme self.now.greatest }
    {
        if self.head >= END {
            *top = Top::ended();
            return;
        }
        top.head = self.head;
        top.weight = weigh_by(factor, scheme, self.weight as u64);
        top.greatest = weigh_by(factor, scheme, self.greatest as u64);
    }
}
