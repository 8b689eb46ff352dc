use crate::streams::zero_stream;
use cpu_gen::Cpu;

// The first bytes of the next call key, if the CPU's key is the first half of block 0 of the zero key's stream.
const NEXT_CALL_KEY: &[u8] = b"\xaf\xbd\xad\x28\x45\xb9\x3c\xdb";

fn zero_cpu() -> Cpu {
    Cpu::with([0; 32], 1)
}

#[test]
fn kernel_read_of_96_goes_on_in_the_next_block(rt: HostRuntime) {
    let mut cpu = zero_cpu();
    let mut bytes = [1; 96];
    cpu.kernel_read(&mut bytes);
    assert_eq!(rt; Some(&bytes[..]), zero_stream(32, 128));
    assert_eq!(rt; cpu.generation(), 1);
    // The CPU's key is now the first half of block 0 of the zero key's stream.
    assert!(rt; cpu.call_key().starts_with(NEXT_CALL_KEY));
}

#[test]
fn front_hands_out_the_second_half(rt: HostRuntime) {
    let mut cpu = zero_cpu();
    let mut out = [1; 32];
    let rest = cpu.front(&mut out);
    assert_eq!(rt; Some(&out[..]), zero_stream(32, 64));
    assert_eq!(rt; rest.key, [0; 32]);
    assert_eq!(rt; rest.next_block, 1);
    assert!(rt; cpu.call_key().starts_with(NEXT_CALL_KEY));
}

#[test]
fn prepare_keeps_the_key(rt: HostRuntime) {
    let mut cpu = zero_cpu();
    cpu.prepare();
    assert!(rt; cpu.needs(1));
    assert!(rt; !cpu.needs(0));
    assert_eq!(rt; Some(&cpu.call_key()[..]), zero_stream(32, 64));
}
