ghost use Rattle.std.specs.Prelude.{◌≤◌, ◌<◌};

use int_batch::Batch;

// Fills the batch with 0, 1, 2 and so on.
fn count_bytes(bytes: &mut [u8; 96]) {
    for (i, byte) in bytes.iter_mut().enumerate() {
        *byte = i as u8;
    }
}

// The bytes that a batch serves after a fill at `generation`. The batch must not have had this generation before.
fn bytes_before<const W: usize>(batch: &mut Batch<W>, generation: u64) -> [u8; 96]
    requires some { 0 < W }
    requires fits { W ≤ 96 }
{
    let mut bytes = [1; 96];
    batch.next(generation, |before| bytes = *before);
    bytes
}

// A fill has 96 / W integers. Their bytes, one after another, are the bytes of the fill.
#[test]
fn serves_each_byte_once(rt: HostRuntime) {
    let mut batch = Batch::<4>::start();
    for i in 0..24u8 {
        let entry = batch.next(1, count_bytes);
        assert_eq!(rt; entry, [4 * i, 4 * i + 1, 4 * i + 2, 4 * i + 3]);
    }
    assert!(rt; batch.wants(1));
    assert_eq!(rt; bytes_before(&mut batch, 1), [0; 96]);
    assert_eq!(rt; batch.next(2, count_bytes), [0, 1, 2, 3]);
}

#[test]
fn widths_share_out_96_bytes(rt: HostRuntime) {
    let (mut bytes, mut pairs, mut eights) = (
        Batch::<1>::start(),
        Batch::<2>::start(),
        Batch::<8>::start(),
    );
    for i in 0..96u8 {
        assert_eq!(rt; bytes.next(3, count_bytes), [i]);
    }
    for i in 0..48u8 {
        assert_eq!(rt; pairs.next(3, count_bytes), [2 * i, 2 * i + 1]);
    }
    for i in 0..12u8 {
        assert_eq!(rt; eights.next(3, count_bytes)[7], 8 * i + 7);
    }
    assert!(rt; bytes.wants(3) && pairs.wants(3) && eights.wants(3));
}
