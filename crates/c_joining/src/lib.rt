// The calls for C that split and combine. include/bai2.h declares them.

#![tactic(auto)]

ghost use Rattle.std.specs.Prelude.{◌≡◌};
ghost use Rattle.rules.specs.Split.{split};
ghost use Rattle.rules.specs.Combine.{combine};
ghost use Rattle.c_joining.specs.CJoined.{split_meant, combine_meant};

// What splitting a file answers.
#[repr(C)]
#[derive(Clone, Copy)]
pub struct Bai2Answer {
    pub number: u64,
    pub place: u64,
    pub length: u64,
}

// The file with one receiver's groups alone, at the front of out.
#[unsafe(no_mangle)]
pub extern "C" fn bai2_split(name: &[u8], file: &[u8], out: &mut [u8]) -> Bai2Answer
    ensures { split_meant result out.new ≡ split name.now file.now out.old }
{
    match join_split::split(name, file, out) {
        Ok(length) => Bai2Answer {
            number: 0,
            place: 0,
            length: length as u64,
        },
        Err(why) => Bai2Answer {
            number: why.reason.number(),
            place: why.place.0 as u64,
            length: 0,
        },
    }
}

// What combining two files answers; file: the one that the reader refused, 1 or 2, or 0.
#[repr(C)]
#[derive(Clone, Copy)]
pub struct Bai2Combined {
    pub number: u64,
    pub place: u64,
    pub length: u64,
    pub file: u64,
}

// The first file's header and groups, then the second's groups, at the front of out.
#[unsafe(no_mangle)]
pub extern "C" fn bai2_combine(a: &[u8], b: &[u8], out: &mut [u8]) -> Bai2Combined
    ensures { combine_meant result out.new ≡ combine a.now b.now out.old }
{
    match join_combine::combine(a, b, out) {
        Ok(length) => Bai2Combined {
            number: 0,
            place: 0,
            length: length as u64,
            file: 0,
        },
        Err(why) => Bai2Combined {
            number: why.refusal.reason.number(),
            place: why.refusal.place.0 as u64,
            length: 0,
            file: why.file,
        },
    }
}
