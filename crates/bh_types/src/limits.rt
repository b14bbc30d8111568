ghost use Rattle.std.specs.Prelude.{◌≡◌, ◌↔◌, IsTrue};
ghost use Rattle.std.specs.Option.{SomeIff};
ghost use Rattle.bh_types.specs.Limits.{HostLimits, AreLimits, default_limits, HostTuning, IsTuning, default_tuning, IsQuota};

use std::marker::Model;

/// The maximum of `min_part`, in bytes.
pub const GREATEST_MIN_PART: u64 = 1 << 30;
/// The default of `min_part`, as in S3: 5 MiB (Amazon S3 User Guide, "Amazon S3 multipart upload
/// limits").
pub const DEFAULT_MIN_PART: u64 = 5_242_880;
/// The maximum of `max_body`, in bytes.
pub const GREATEST_MAX_BODY: u64 = 1 << 30;
/// The default of `max_body`: 16 MiB.
pub const DEFAULT_MAX_BODY: u64 = 16_777_216;
/// The maximum of `block_size`, in bytes.
pub const GREATEST_BLOCK_SIZE: u64 = 1_048_576;
/// The default of `block_size`: 64 KiB.
pub const DEFAULT_BLOCK_SIZE: u64 = 65_536;
/// The maximum of `cache_blocks`.
pub const GREATEST_CACHE_BLOCKS: u64 = 65_536;
/// The default of `cache_blocks`: no cache.
pub const DEFAULT_CACHE_BLOCKS: u64 = 0;
/// The maximum quota of a tenant, in bytes.
pub const MAX_QUOTA: u64 = 1 << 60;

/// The limits of a host, fixed when it is created.
#[derive(Clone, Copy, Debug, PartialEq, Eq)]
pub struct Limits {
    /// The minimum size in bytes of an upload's part, except the last one.
    pub min_part: u64,
    /// The maximum size in bytes of a request's body.
    pub max_body: u64,
}

impl Model for Limits {
    ghost Value = { HostLimits };

    ghost view = { λ l. record { min_part = l.min_part; max_body = l.max_body } };

    ghost invariant = { λ l. AreLimits l.min_part l.max_body };

    ghost inverse = { λ l. record { min_part = l.min_part; max_body = l.max_body } };
}

impl Limits {
    /// The limits, or `None` if `min_part` is above [`GREATEST_MIN_PART`], or `max_body` is 0 or
    /// above [`GREATEST_MAX_BODY`].
    pub fn new(min_part: u64, max_body: u64) -> Option<Limits>
        ensures { SomeIff result (AreLimits min_part max_body) (record { min_part = min_part; max_body = max_body }) }
    {
        if min_part <= GREATEST_MIN_PART && 1 <= max_body && max_body <= GREATEST_MAX_BODY {
            Some(Limits { min_part, max_body })
        } else {
            None
        }
    }
}

impl Default for Limits {
    ghost is_default = { λ l. l ≡ default_limits };

    fn default() -> Limits {
        Limits {
            min_part: DEFAULT_MIN_PART,
            max_body: DEFAULT_MAX_BODY,
        }
    }
}

/// The settings of a process; they may differ each time that a host is opened.
#[derive(Clone, Copy, PartialEq, Eq)]
pub struct Tuning {
    /// The size in bytes of the blocks into which bodies are cut.
    pub block_size: u64,
    /// The maximum number of cached blocks; 0 means no cache.
    pub cache_blocks: u64,
}

impl Model for Tuning {
    ghost Value = { HostTuning };

    ghost view = { λ t. record { block_size = t.block_size; cache_blocks = t.cache_blocks } };

    ghost invariant = { λ t. IsTuning t.block_size t.cache_blocks };

    ghost inverse = { λ t. record { block_size = t.block_size; cache_blocks = t.cache_blocks } };
}

impl Tuning {
    /// The tuning, or `None` if `block_size` is 0 or above [`GREATEST_BLOCK_SIZE`], or
    /// `cache_blocks` is above [`GREATEST_CACHE_BLOCKS`].
    pub fn new(block_size: u64, cache_blocks: u64) -> Option<Tuning>
        ensures { SomeIff result (IsTuning block_size cache_blocks) (record { block_size = block_size; cache_blocks = cache_blocks }) }
    {
        if 1 <= block_size
            && block_size <= GREATEST_BLOCK_SIZE
            && cache_blocks <= GREATEST_CACHE_BLOCKS
        {
            Some(Tuning {
                block_size,
                cache_blocks,
            })
        } else {
            None
        }
    }
}

impl Default for Tuning {
    ghost is_default = { λ t. t ≡ default_tuning };

    fn default() -> Tuning {
        Tuning {
            block_size: DEFAULT_BLOCK_SIZE,
            cache_blocks: DEFAULT_CACHE_BLOCKS,
        }
    }
}

/// Whether a number of bytes is a valid quota: at most [`MAX_QUOTA`].
pub fn is_quota(bytes: u64) -> bool
    ensures { IsTrue result ↔ IsQuota bytes }
{
    bytes <= MAX_QUOTA
}
