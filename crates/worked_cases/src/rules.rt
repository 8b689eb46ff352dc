//! The kernel's small rules on example numbers: credits, input events, interrupts and the reseed timer.
ghost use Rattle.std.specs.Prelude.{◌≡◌, ℕ, true, false, Some, [], ◌∷◌, map, replicate, ◌++◌};
ghost use Rattle.key_names.specs.declared.entries.PoolEntry.TheVariants.{Input};
ghost use Rattle.key_names.specs.declared.entries.BaseEntry.TheVariants.{Reseed, Tick};
ghost use Rattle.key_names.specs.declared.entries.CpuEntry.TheVariants.{Irq, Online};
ghost use Rattle.key_names.specs.Kernel.FastPool.{fast_start, fast_after, makes_due, dump_bits};
ghost use Rattle.key_names.specs.Lanes.PoolList.{credit, crossing, ready, early, none, pool_after};
ghost use Rattle.key_names.specs.Lanes.BaseList.{base_after, interval};
ghost use Rattle.worked_cases.specs.Rules.{bits_after, timer_at, finished, rounds, siphash_start};

/// At 127 bits, a credit of one bit crosses 128; at 255 bits, it crosses 256. A credit that passes both crosses only
/// 256 (`_credit_init_bits`).
#[tactic(auto, using(crate::proofs::WorkedRules::crossings, crate::proofs::WorkedRules::early_is_skipped))]
pub fn credits()
    ensures crossings { map (λ (n : ℕ). crossing n (credit n 1)) (126 ∷ 127 ∷ 254 ∷ 255 ∷ 256 ∷ [])
        ≡ none ∷ early ∷ none ∷ ready ∷ none ∷ [] }
    ensures early_is_skipped { crossing 100 (credit 100 300) ≡ ready }
{}

/// The bits that input events are credited with, and the bytes that they mix. An event that repeats the last value
/// mixes no bytes (`add_timer_randomness`, `add_input_randomness`).
#[tactic(auto, using(crate::proofs::WorkedRules::bits_of_inputs, crate::proofs::WorkedRules::text_of_inputs))]
pub fn input_events()
    ensures bits { map bits_after (1 ∷ 2 ∷ 3 ∷ 4 ∷ []) ≡ 9 ∷ 9 ∷ 19 ∷ 19 ∷ [] }
    ensures bytes { (pool_after (Input 0 1 30 1 1000 ∷ Input 0 1 30 1 2000 ∷ [])).text
        ≡ 0 ∷ 0 ∷ 0 ∷ 0 ∷ 0 ∷ 0 ∷ 0 ∷ 0 ∷ 14 ∷ 0 ∷ 0 ∷ 0 ∷ [] }
{}

/// A dump is due after more than 1,000 milliseconds, and at the 1,024th interrupt. The latter dump is credited with 16
/// bits, or with one bit if the CPU came online before the dump (`add_interrupt_randomness`,
/// `mix_interrupt_randomness`).
#[tactic(auto, using(crate::proofs::WorkedRules::due_by_time, crate::proofs::WorkedRules::due_by_count, crate::proofs::WorkedRules::bits_of_count, crate::proofs::WorkedRules::bits_after_online))]
pub fn dumps()
    ensures by_time { map (makes_due fast_start) (1000 ∷ 1001 ∷ []) ≡ false ∷ true ∷ [] }
    ensures by_count { makes_due (fast_after (replicate 1023 (Irq 1 2 0))) 0 ≡ true }
    ensures bits { dump_bits (fast_after (replicate 1024 (Irq 1 2 0))) ≡ 16 }
    ensures after_online { dump_bits (fast_after (replicate 1024 (Irq 1 2 0) ++ Online ∷ [])) ≡ 1 }
{}

/// The age of the system determines the milliseconds to the next reseed. A forced reseed does not change the timer, and
/// a tick that fires sets it (`crng_reseed_interval`).
#[tactic(auto, using(crate::proofs::WorkedRules::intervals, crate::proofs::WorkedRules::late_interval, crate::proofs::WorkedRules::timers))]
pub fn reseed_intervals()
    ensures by_age { map (interval true) (0 ∷ 1999 ∷ 5000 ∷ 119999 ∷ 120000 ∷ [])
        ≡ 1000 ∷ 1000 ∷ 2000 ∷ 59000 ∷ 60000 ∷ [] }
    ensures late { (base_after (Reseed 0 120000 ∷ Tick 180000 (Some 1) ∷ [])).timer ≡ Some 240000 }
    ensures forced { map timer_at (1 ∷ 2 ∷ 3 ∷ 4 ∷ 5 ∷ 6 ∷ [])
        ≡ Some 1000 ∷ Some 1000 ∷ Some 2000 ∷ Some 2000 ∷ Some 2000 ∷ Some 3000 ∷ [] }
{}

/// SipHash-2-4 of no bytes under the published key 00 01 .. 0f, computed with the same round that mixes samples into a
/// fast pool.
#[tactic(auto, using(crate::proofs::WorkedRules::siphash_of_nothing))]
pub fn siphash_of_nothing()
    ensures { finished (rounds 2 siphash_start) ≡ 0x726fdb47dd0e0e31 }
{}
