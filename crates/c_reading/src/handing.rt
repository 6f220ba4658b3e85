// Records and fields handed out for C.
ghost use Rattle.std.specs.Prelude.{◌≡◌};
ghost use Rattle.rules.specs.HandedOut.{record_at, record_answer, fields_of_record};
ghost use Rattle.c_reading.specs.CAnswers.{record_figures, fields_figures};

use base_quantities::Place;

// A record: its code, its lines and its length.
#[repr(C)]
#[derive(Clone, Copy)]
pub struct Bai2Record {
    pub number: u64,
    pub place: u64,
    pub code: u64,
    pub lines: u64,
    pub length: u64,
}

// The record that begins at byte `start`.
#[unsafe(no_mangle)]
pub extern "C" fn bai2_record_at(file: &[u8], start: u64) -> Bai2Record
    ensures { record_figures result ≡ record_answer (record_at file.now start) }
{
    match part_records::record_at(file, Place(start as usize)) {
        Ok(record) => Bai2Record {
            number: 0,
            place: 0,
            code: base_codes::number_of(record.code) as u64,
            lines: record.lines.0,
            length: record.length as u64,
        },
        Err(why) => Bai2Record {
            number: why.reason.number(),
            place: why.place.0 as u64,
            code: 0,
            lines: 0,
            length: 0,
        },
    }
}

// How many fields a record has.
#[repr(C)]
#[derive(Clone, Copy)]
pub struct Bai2Fields {
    pub number: u64,
    pub place: u64,
    pub count: u64,
}

// The fields of the record that begins at byte `start`: three numbers each, at the front of out.
#[unsafe(no_mangle)]
pub extern "C" fn bai2_fields_at(file: &[u8], start: u64, out: &mut [u64]) -> Bai2Fields
    ensures { fields_figures result out.new ≡ fields_of_record file.now start out.old }
{
    match part_fields::fields_at(file, Place(start as usize), out) {
        Ok(count) => Bai2Fields {
            number: 0,
            place: 0,
            count: count.0,
        },
        Err(why) => Bai2Fields {
            number: why.reason.number(),
            place: why.place.0 as u64,
            count: 0,
        },
    }
}
