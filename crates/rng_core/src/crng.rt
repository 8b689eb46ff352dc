//! The generator of the core (the "fast key erasure RNG" of random.c).
//!
//! Before the core is ready, a read draws its key from the base; after that, from the CPU that its caller runs on. If
//! the CPU's key is not of the core's generation, the CPU first takes a key from the base. Each key is erased in the
//! visit that uses it. A reseed extracts a key for the base (a root) from the pool, and raises the generation.
//!
//! The calls of this section, with the kernel function that each follows:
//!
//! - `kernel_read`: `get_random_bytes`
//! - `urandom_file`: `urandom_read_iter`
//! - `int`: `get_random_u8` to `get_random_u64`
//! - `reseed`: `random_ioctl` of `RNDRESEEDCRNG`
//! - `tick`: the delayed work of `crng_reseed`
//! - `prepare`, `online`: `random_prepare_cpu`, `random_online_cpu`
//!
//! The functions that these and other calls use:
//!
//! - `reads::begin_after`: `crng_make_state`; `Site::refill` is its part that takes a key from the base
//! - `reads::read_cpu`: `_get_random_bytes` and `get_random_bytes_user`; `Rest::fill` makes their last bytes
//! - `rest::front_of_cpu`, `rest::front_of_base`: `crng_fast_key_erasure`
//! - `reseeds::reseed_base`: `crng_reseed`
//! - `reseeds::cross`: the end of `_credit_init_bits`
//! - `Site::extract`: `extract_entropy`

pub(crate) mod cpus;
pub(crate) mod integers;
pub(crate) mod keys;
pub(crate) mod reads;
pub(crate) mod reseeds;
pub(crate) mod rest;
