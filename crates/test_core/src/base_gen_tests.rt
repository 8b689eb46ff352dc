use crate::streams::zero_stream;
use base_gen::Base;

#[test]
fn draws_hand_out_the_second_half(rt: HostRuntime) {
    let mut base = Base::start();
    let mut out = [1; 32];
    let rest = base.draw(&mut out);
    assert_eq!(rt; Some(&out[..]), zero_stream(32, 64));
    assert_eq!(rt; rest.key, [0; 32]);
    assert_eq!(rt; rest.next_block, 1);
    // The base's key is now the first half of block 0 of the zero key's stream. The bytes below begin the second half
    // of the new key's block 0.
    assert!(rt;
        base.call_key()
            .starts_with(b"\xaf\xbd\xad\x28\x45\xb9\x3c\xdb")
    );

    assert_eq!(rt; Some(&Base::start().call_key()[..]), zero_stream(32, 64));
}

#[test]
fn running_count_stays_at_zero(rt: HostRuntime) {
    let mut base = Base::start();
    base.up();
    assert_eq!(rt; base.running(), 2);
    base.down();
    base.down();
    assert!(rt; base.idle());
    base.down();
    assert_eq!(rt; base.running(), 0);
    base.up();
    assert_eq!(rt; base.running(), 1);
}
