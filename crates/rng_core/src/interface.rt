//! The interfaces for programs (the "userspace reader/writer interfaces" of random.c), with the wait for readiness.
//!
//! Programs may read by:
//!
//! - `getrandom`: `SYSCALL_DEFINE3(getrandom)`
//! - `random_file`: `random_read_iter`
//!
//! Both functions wait as `wait_for_random_bytes` does. The other interfaces are in other sections. `urandom_read_iter`
//! is `urandom_file` in `crng`, and `write_pool_user` is `mix` in `sources`. The requests of `random_ioctl` are `add`
//! and `bits` in `sources`, and `reseed` in `crng`.

pub(crate) mod system_call;
