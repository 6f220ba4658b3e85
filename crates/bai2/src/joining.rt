// The exports that split and combine.
ghost use Rattle.std.specs.Prelude.{◌≡◌};
ghost use Rattle.rules.specs.Split.{split};
ghost use Rattle.rules.specs.Combine.{combine};
ghost use Rattle.c_joining.specs.CJoined.{split_meant, combine_meant};

use c_joining::{Bai2Answer, Bai2Combined};

// The file with one receiver's groups alone, at the front of out.
#[unsafe(no_mangle)]
pub extern "C" fn bai2_split(name: &[u8], file: &[u8], out: &mut [u8]) -> Bai2Answer
    ensures { split_meant result out.new ≡ split name.now file.now out.old }
{
    c_joining::bai2_split(name, file, out)
}

// The first file's header and groups, then the second's groups, at the front of out.
#[unsafe(no_mangle)]
pub extern "C" fn bai2_combine(a: &[u8], b: &[u8], out: &mut [u8]) -> Bai2Combined
    ensures { combine_meant result out.new ≡ combine a.now b.now out.old }
{
    c_joining::bai2_combine(a, b, out)
}
