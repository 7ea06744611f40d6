//! How much room streams take (MS-CFB 2.4, 2.5).

ghost use Rattle.std.specs.Prelude.{◌≡◌, ◌*◌, ◌-◌, ◌<◌, nat_lt};
ghost use Rattle.cfb_file.specs.Need.{pieces};
ghost use Rattle.cfb_file.specs.declared.limit.TheConstants.{CUTOFF};

use cfb_file::limit::CUTOFF;

/// Whether a stream of so many bytes lies in the mini stream.
pub fn is_short(len: usize) -> bool
    ensures { result ≡ nat_lt len CUTOFF }
{
    len < CUTOFF
}

/// How many mini sectors so many bytes take.
pub fn mini_count(len: usize) -> usize
    ensures { result ≡ pieces 64 len }
{
    len.div_ceil(64)
}

/// How many sectors so many bytes take.
pub fn sector_count(len: usize) -> usize
    ensures { result ≡ pieces 512 len }
{
    len.div_ceil(512)
}

/// How many zeros stand behind so many bytes up to whole mini sectors.
pub fn mini_zeros(len: usize) -> usize
    ensures few { result < 512 }
    ensures zeros { result ≡ 64 * pieces 64 len - len }
{
    (64 - len % 64) % 64
}

/// How many stand behind them up to whole sectors.
pub fn sector_zeros(len: usize) -> usize
    ensures few { result < 512 }
    ensures zeros { result ≡ 512 * pieces 512 len - len }
{
    (512 - len % 512) % 512
}
