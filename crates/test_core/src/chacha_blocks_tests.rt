use crate::streams::zero_stream;
use chacha_blocks::{Detached, derive_key, erase};

fn zero_key() -> [u8; 32] {
    [0; 32]
}

// An erasure that returns 32 bytes, and one that returns none. Each erasure makes the first half of block 0 the key.
// The first erasure returns the second half of this block.
#[test]
fn erasure_of_the_zero_key(rt: HostRuntime) {
    let mut key = zero_key();
    let mut out = [0; 32];
    let rest = erase(&mut key, &mut out);
    assert_eq!(rt; Some(&key[..]), zero_stream(0, 32));
    assert_eq!(rt; Some(&out[..]), zero_stream(32, 64));
    assert_eq!(rt; rest.key, zero_key());
    assert_eq!(rt; rest.next_block, 1);

    let mut unread = zero_key();
    let rest = erase(&mut unread, &mut []);
    assert_eq!(rt; unread, key);
    assert_eq!(rt; rest.next_block, 1);
}

#[test]
fn more_goes_on_at_the_next_block(rt: HostRuntime) {
    let mut rest = Detached::of(zero_key(), 0);
    let mut bytes = [0; 5];
    rest.more(&mut bytes);
    assert_eq!(rt; Some(&bytes[..]), zero_stream(0, 5));
    assert_eq!(rt; rest.next_block, 1);
    let mut block = [0; 64];
    rest.more(&mut block);
    assert_eq!(rt; Some(&block[..]), zero_stream(64, 128));
    assert_eq!(rt; rest.next_block, 2);
}

#[test]
fn derived_key_is_the_rest_of_the_block(rt: HostRuntime) {
    let mut key = zero_key();
    let derived = derive_key(&mut key);
    assert_eq!(rt; Some(&key[..]), zero_stream(0, 32));
    assert_eq!(rt; Some(&derived[..]), zero_stream(32, 64));
}
