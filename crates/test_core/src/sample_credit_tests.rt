use sample_credit::{Dump, FastPool};

// The fast pool's first two words after one interrupt, and after 1,024. Each interrupt mixes two words, with one round
// of SipHash for each, and the key is zero. The constants are from an implementation that was compared with the
// SipHash-1-3 of CPython.
const AFTER_ONE_MIX: [u8; 16] =
    *b"\x64\x45\x64\xd7\x49\x89\xff\x51\x5d\xce\x1d\xa4\x4c\x05\x8c\xe9";

const AFTER_1024_MIXES: [u8; 16] =
    *b"\x14\xe6\x0c\x9d\x3a\xd9\xd3\x82\x8d\xfc\xf6\xe9\x56\x5f\x9b\xb3";

#[test]
fn dump_after_a_burst_of_1024(rt: HostRuntime) {
    let mut pool = FastPool::start();
    for interrupt in 1..=1024 {
        assert_eq!(rt;
            pool.mix(1, 2, 0),
            interrupt == 1024,
            "interrupt {interrupt}"
        );
    }
    let dump = Dump {
        bytes: AFTER_1024_MIXES,
        bits: 16,
    };
    assert_eq!(rt; pool.dump(0), dump);
    assert!(rt; !pool.mix(1, 2, 0));
}

#[test]
fn dump_more_than_a_second_after_the_last(rt: HostRuntime) {
    let mut pool = FastPool::start();
    assert!(rt; !pool.mix(0, 0, 1000));

    let mut pool = FastPool::start();
    assert!(rt; pool.mix(0x0123_4567_89ab_cdef, 0xfedc_ba98_7654_3210, 1001));
    let dump = Dump {
        bytes: AFTER_ONE_MIX,
        bits: 1,
    };
    assert_eq!(rt; pool.dump(1001), dump);
    assert!(rt; !pool.mix(1, 2, 2001));
    assert!(rt; pool.mix(1, 2, 2002));
    assert!(rt; !pool.mix(1, 2, 5000), "a dump is due already");
}

#[test]
fn online_starts_the_count_again(rt: HostRuntime) {
    let mut pool = FastPool::start();
    for _ in 0..1023 {
        assert!(rt; !pool.mix(1, 2, 0));
    }
    pool.online();
    assert!(rt; !pool.mix(1, 2, 0));
    assert_eq!(rt; pool.dump(0).bytes, AFTER_1024_MIXES);
}
