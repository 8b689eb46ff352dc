ghost use Rattle.std.specs.Prelude.{IfOk, All, ◌<◌, ◌^◌, length, map};
ghost use Rattle.judge_log.specs.Tables.{CpuIsWide, InRange, tables_of};
ghost use Rattle.judge_log.specs.declared.inferred.InferredCpu.{InferredCpu};

use input_pool::Crossing;
use judge_lines::inferred::{BaseInferred, CpuInferred};
use judge_log::{
    BytesSource, InferredCpu, InferredEntries, InferredPool, KeptBase, KeptCpu, KeptPool, KeptRoot,
    replay_lists,
};
use key_names::{BaseEntry, CpuEntry, PoolNote, Taken};
use std::alloc::{AllocError, Global};

// The first constant is the first root of a pool after a mix of "abc", computed by Python's hashlib. The second is
// the CPU's key, bytes 32 to 64 of the root's keystream, and the third is bytes 0 to 32 of the keystream of the CPU's
// key. The second and the third were computed by a ChaCha20 in Python that was compared with the first block of a zero
// key.
const ROOT: [u8; 32] = *b"\x9d\x59\x8e\x47\xdd\x3e\x9a\x6d\x9a\xfd\x89\x9d\x2d\xd9\x0d\x9e\
          \x4d\xe1\xae\x08\xe9\x40\x57\xb0\x37\x48\x00\x45\xc0\x1c\x69\x37";

const CPU_KEY: [u8; 32] = *b"\x2e\x6b\xb5\xff\x0f\xe2\x62\xf6\x61\x31\xc5\xe0\x63\x55\x0e\x5e\
          \xa8\x19\xda\x6a\xb7\xc4\x06\x2b\xca\x75\x0a\xff\xe7\x1b\xe9\xbb";

const NEXT_CPU_KEY: [u8; 32] = *b"\x42\x19\x7a\xa5\xc5\x59\xd1\x11\x3a\xd6\x70\x26\x58\x6e\x0e\x84\
          \x5d\xfd\x68\x71\xd4\x3c\x8d\x6c\x76\xbe\x10\xad\xb6\xe6\xa0\x36";

fn lane(alloc: Global, look: u64) -> Result<Vec<Vec<InferredCpu>>, AllocError>
    ensures few { IfOk result (λ cpus. length (map (λ lane. lane.items) cpus.items) < 2 ^ 32) }
    ensures wide { IfOk result (λ cpus. All (λ lane. All (λ (t : InferredCpu). CpuIsWide t.entry) lane)
        (map (λ lane. lane.items) cpus.items)) }
{
    let read = CpuEntry::Read {
        look,
        refill: Some(1),
        taken: Taken::User(16),
    };
    let integer = CpuInferred::Batch { look, width: 8 };
    let mut cpus = Vec::new(alloc);
    cpus.push([
        InferredCpu {
            entry: CpuInferred::Is(read),
            dumps: false,
        },
        InferredCpu {
            entry: integer,
            dumps: false,
        },
        InferredCpu {
            entry: integer,
            dumps: false,
        },
    ]
    .to_vec(alloc)?)?;
    Ok(cpus)
}

// A pool that reaches 256 bits and gives a root, a reseed with this root, and a CPU that is refilled and read three
// times.
fn reseeded<'a>(
    alloc: Global,
    extraction: u64,
    root: u64,
    refill: u64,
    look: u64,
) -> Result<InferredEntries<'a>, AllocError>
    ensures { IfOk result (λ inferred. InRange (tables_of inferred)) }
{
    Ok(InferredEntries {
        pool: [
            InferredPool::Is(PoolNote::Mix {
                text: b"abc",
                bits: 256,
            }),
            InferredPool::Is(PoolNote::Extract {
                hw: [0; 32],
                base_place: extraction,
            }),
        ]
        .to_vec(alloc)?,
        base: [
            BaseInferred::Crossed {
                root,
                now: 0,
                credit: 0,
            },
            BaseInferred::Is(BaseEntry::Refill {
                cpu: 0,
                cpu_place: refill,
            }),
        ]
        .to_vec(alloc)?,
        cpus: lane(alloc, look)?,
    })
}

const READ: CpuEntry = CpuEntry::Read {
    look: 1,
    refill: Some(1),
    taken: Taken::User(16),
};

fn integer(filled: bool) -> CpuEntry {
    CpuEntry::Int {
        look: 1,
        refill: None,
        width: 8,
        filled,
    }
}

fn kept_cpu(entry: CpuEntry, key: [u8; 32], served: u32) -> KeptCpu {
    KeptCpu {
        entry,
        generation: 1,
        source: BytesSource {
            key: Some(key),
            served,
        },
    }
}

#[test]
fn keys_of_a_refilled_cpu(rt: HostRuntime) -> Result<(), AllocError> {
    let inferred = reseeded(rt.alloc(), 0, 1, 0, 1)?;
    let kept = replay_lists(rt.alloc(), &inferred)?;
    assert!(rt; kept.is_some());
    if let Some(kept) = kept {
        let extracted = KeptPool {
            before: 256,
            crossing: Crossing::None,
            root: Some(KeptRoot {
                value: ROOT,
                base_place: 0,
            }),
        };
        assert_eq!(rt; kept.pool.last(), Some(&extracted));
        let refill = KeptBase {
            entry: BaseEntry::Refill {
                cpu: 0,
                cpu_place: 0,
            },
            generation: 1,
            key: Some(ROOT),
        };
        assert_eq!(rt; kept.base.last(), Some(&refill));
        let reads = [
            kept_cpu(READ, CPU_KEY, 0),
            kept_cpu(integer(true), NEXT_CPU_KEY, 0),
            kept_cpu(integer(false), NEXT_CPU_KEY, 1),
        ];
        for lane in &kept.cpus {
            assert_eq!(rt; lane.as_slice(), reads.as_slice());
        }
        assert_eq!(rt; kept.cpus.len(), 1);
    }
    Ok(())
}

#[test]
fn names_that_are_not_answered(rt: HostRuntime) -> Result<(), AllocError> {
    for (extraction, root, refill, look, lawful) in [
        (0, 1, 0, 1, true),
        (1, 1, 0, 1, false),
        (0, 0, 0, 1, false),
        (0, 1, 1, 1, false),
        (0, 1, 0, 2, false),
    ] {
        let inferred = reseeded(rt.alloc(), extraction, root, refill, look)?;
        let kept = replay_lists(rt.alloc(), &inferred)?;
        assert_eq!(rt;
            kept.is_some(),
            lawful,
            "{extraction} {root} {refill} {look}"
        );
    }
    Ok(())
}

// An interrupt that makes a dump due, since it is the first interrupt more than a second after the start. The dump
// follows.
fn dumped<'a>(alloc: Global, dumps: bool, place: u64) -> Result<InferredEntries<'a>, AllocError>
    ensures { IfOk result (λ inferred. InRange (tables_of inferred)) }
{
    let now = 1001;
    let mut cpus = Vec::new(alloc);
    cpus.push([
        InferredCpu {
            entry: CpuInferred::Is(CpuEntry::Irq { v1: 1, v2: 2, now }),
            dumps,
        },
        InferredCpu {
            entry: CpuInferred::Is(CpuEntry::Dump { now }),
            dumps: false,
        },
    ]
    .to_vec(alloc)?)?;
    Ok(InferredEntries {
        pool: [
            InferredPool::Dumped { cpu: 0, place },
            InferredPool::Is(PoolNote::Bits),
        ]
        .to_vec(alloc)?,
        base: Vec::new(alloc),
        cpus,
    })
}

#[test]
fn dumps_that_are_due(rt: HostRuntime) -> Result<(), AllocError> {
    for (dumps, place, lawful) in [(true, 1, true), (false, 1, false), (true, 0, false)] {
        let inferred = dumped(rt.alloc(), dumps, place)?;
        let kept = replay_lists(rt.alloc(), &inferred)?;
        assert_eq!(rt; kept.is_some(), lawful, "{dumps} {place}");
        if let Some(kept) = kept {
            for (pool, before) in kept.pool.iter().zip([0, 1]) {
                assert_eq!(rt; pool.before, before);
            }
        }
    }
    Ok(())
}
