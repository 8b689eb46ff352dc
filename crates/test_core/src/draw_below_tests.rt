//! Draws from lists of words, compared with the results of the kernel's code for the same words.
mod rows;

use draw_below::{DrawSpent, ListWords, Rejected, below, between, draw_on_new_table, shuffle};
use rows::ROWS;
use std::alloc::{AllocError, Global};
use std::test::Fail;

/// Each row of the table has this many words.
const ROW_WORDS: u32 = 8;

fn listed(alloc: Global, words: &[u32]) -> Result<ListWords, AllocError> {
    Ok(ListWords::of(Vec::from_slice(alloc, words)?))
}

// The words of a row, from a linear congruential generator that starts at a multiple of the row's number.
fn words_of(alloc: Global, row: u32) -> Result<ListWords, AllocError> {
    let mut word = row.wrapping_mul(2_654_435_761);
    let mut words = Vec::new(alloc);
    for _ in 0..ROW_WORDS {
        word = word.wrapping_mul(1_664_525).wrapping_add(1_013_904_223);
        words.push(word)?;
    }
    Ok(ListWords::of(words))
}

#[test]
fn draws_below_some_bounds(rt: HostRuntime) -> Result<(), Fail> {
    let alloc = rt.alloc();
    let mut rejected = Rejected::empty();
    let mut words = listed(alloc, &[0, 1])?;
    assert_eq!(rt; below(&rt, &mut words, 6, &mut rejected), Ok(0));
    assert!(rt; rejected.len() == 1 && rejected.get(0) == 0);
    words = listed(alloc, &[715_827_883, 715_827_884])?;
    assert_eq!(rt; below(&rt, &mut words, 6, &mut rejected), Ok(1));
    assert!(rt; rejected.len() == 1 && rejected.get(0) == 715_827_883);
    words = listed(alloc, &[u32::MAX])?;
    assert_eq!(rt;
        below(&rt, &mut words, 1 << 31, &mut rejected),
        Ok(i32::MAX as u32)
    );
    words = listed(alloc, &[7])?;
    assert_eq!(rt; below(&rt, &mut words, 0, &mut rejected), Ok(7));
    assert_eq!(rt; rejected.len(), 0);
    words = listed(alloc, &[])?;
    assert_eq!(rt; below(&rt, &mut words, 3, &mut rejected), Err(DrawSpent));
    assert!(rt; rejected.len() == 128 && rejected.get(127) == 0);
    Ok(())
}

#[test]
fn the_kernels_draws(rt: HostRuntime) -> Result<(), Fail> {
    let mut rejected = Rejected::empty();
    for (row, (bound, answer, fewer)) in ROWS.iter().enumerate() {
        let mut words = words_of(rt.alloc(), row as u32)?;
        assert_eq!(rt;
            below(&rt, &mut words, *bound, &mut rejected),
            Ok(*answer),
            "row {row}"
        );
        assert_eq!(rt; rejected.len(), u32::from(*fewer), "row {row}");
    }
    Ok(())
}

#[test]
fn draws_between(rt: HostRuntime) -> Result<(), Fail> {
    let alloc = rt.alloc();
    let mut rejected = Rejected::empty();
    let mut words = listed(alloc, &[0, u32::MAX])?;
    assert_eq!(rt; between(&rt, &mut words, 5, 10, &mut rejected), Ok(10));
    words = listed(alloc, &[9, 8])?;
    assert_eq!(rt; between(&rt, &mut words, 4, 4, &mut rejected), Ok(4));
    words = listed(alloc, &[9])?;
    assert_eq!(rt; between(&rt, &mut words, 0, u32::MAX, &mut rejected), Ok(9));
    Ok(())
}

// The words are those of the second row of the table. None of them is rejected.
#[test]
fn a_shuffle(rt: HostRuntime) -> Result<(), Fail> {
    let alloc = rt.alloc();
    let mut rejected = Rejected::empty();
    let mut list = [1, 2, 3, 4, 5, 6, 7, 8];
    let mut words = words_of(alloc, 1)?;
    assert_eq!(rt; shuffle(&rt, &mut words, &mut list, &mut rejected), Ok(()));
    assert_eq!(rt; list, [7, 4, 6, 8, 1, 5, 2, 3]);
    let mut three = [1, 2, 3];
    words = listed(alloc, &[])?;
    assert_eq!(rt;
        shuffle(&rt, &mut words, &mut three, &mut rejected),
        Err(DrawSpent)
    );
    assert_eq!(rt; three, [1, 2, 3]);
    assert_eq!(rt; rejected.len(), 128);
    assert_eq!(rt; shuffle(&rt, &mut words, &mut [1], &mut rejected), Ok(()));
    assert_eq!(rt; rejected.len(), 0);
    Ok(())
}

// The words are those of another implementation of the core, for a script of `add` and `int32`.
#[test]
fn draws_on_a_new_table(rt: HostRuntime) -> Result<(), Fail> {
    let six = draw_on_new_table(&rt, rt.alloc(), 6, 10)?;
    assert_eq!(rt;
        six.answers.as_slice(),
        [1, 1, 5, 1, 0, 0, 0, 4, 2, 0].as_slice()
    );
    let many = draw_on_new_table(&rt, rt.alloc(), (1 << 31) + 1, 4)?;
    assert_eq!(rt;
        many.answers.as_slice(),
        [2_033_629_397, 456_454_579, 91_363_622, 306_931_166].as_slice()
    );
    assert!(rt; !six.spent && !many.spent);
    Ok(())
}
