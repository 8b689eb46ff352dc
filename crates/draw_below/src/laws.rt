//! The laws of draws, each as the contract of a function without code.
ghost use Rattle.draw_below.specs.Draws.{EachValueIsAsLikely};
ghost use Rattle.draw_below.specs.Orders.{EachOrderHasItsDraws};

/// Each value below a bound has the same number of accepted 32-bit words: 2^32 divided by the bound, rounded down.
#[tactic(auto, using(crate::proofs::Counts::each_value_is_as_likely))]
pub fn each_value_is_as_likely()
    ensures { EachValueIsAsLikely }
{}

/// Each order of different items comes from exactly one list of a shuffle's draws.
#[tactic(auto, using(crate::proofs::Orders::each_order_has_its_draws))]
pub fn each_order_has_its_draws()
    ensures { EachOrderHasItsDraws }
{}
