//! The rules that a written plan may break.

ghost use Rattle.std.specs.Prelude.{◌≡◌};
ghost use Rattle.pool_model.specs.Network.{Net};
ghost use Rattle.pool_model.specs.Plan.{Written};
ghost use Rattle.plan_core.specs.Faults.{number, rank as fault_rank, Breaks};

use faults::Ranked;

/// The first rule that a written plan breaks, by the order below and then by its numbers.
#[derive(Clone, Copy, Debug, PartialEq, Eq)]
pub enum PlanFault {
    /// A base is outside its limits, or a list has another length than the network's arcs.
    Shape,
    /// The weights of this pool's feeds don't sum to the base.
    WeightSum(u32),
    /// This source sends out more than its maximum.
    SourceOver(u32),
    /// More flows through this pool than its maximum.
    PoolOver(u32),
    /// More flows into this product than its maximum.
    ProductOver(u32),
    /// Less flows into this product than its minimum.
    ProductUnder(u32),
    /// This product's mean of this quality is above its most.
    QualityOver(u32, u32),
    /// This product's mean of this quality is below its least.
    QualityUnder(u32, u32),
    /// This arc carries more than its maximum. Arcs have one number: feeds, then outs, then directs.
    ArcOver(u32),
}

impl Ranked for PlanFault {
    ghost rank = { fault_rank };

    ghost Subject = { Net × Written };

    ghost Holds = { λ s. Breaks s.0 s.1 };
}

impl PlanFault {
    /// The number of the rule, as messages tell it: 1 for the first.
    pub fn number(&self) -> u32
        ensures { result ≡ number self.now }
    {
        match self {
            PlanFault::Shape => 1,
            PlanFault::WeightSum(_) => 2,
            PlanFault::SourceOver(_) => 3,
            PlanFault::PoolOver(_) => 4,
            PlanFault::ProductOver(_) => 5,
            PlanFault::ProductUnder(_) => 6,
            PlanFault::QualityOver(_, _) => 7,
            PlanFault::QualityUnder(_, _) => 8,
            PlanFault::ArcOver(_) => 9,
        }
    }
}
