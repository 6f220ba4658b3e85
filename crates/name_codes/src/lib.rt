// What the uniform list of document 000 says of each type code, as one table over 000 to 999.

#![tactic(auto)]

ghost use Rattle.std.specs.Prelude.{◌≡◌};
ghost use Rattle.rules.specs.CodeList.{entry_of};
ghost use Rattle.name_codes.specs.ClassMeaning.{class_meant, entry_meant};

// What a type code is for. NonMonetary: a detail, neither credit nor debit.
#[derive(Clone, Copy)]
pub enum CodeClass {
    Unlisted,
    Status,
    CreditSummary,
    CreditDetail,
    DebitSummary,
    DebitDetail,
    NonMonetary,
}

// The class of each code, 50 to a line: s status, C credit summary, c credit detail, D debit summary, d debit detail, n not monetary; a dot, not listed.
const CLASSES: [u8; 1000] = *b"\
    ..........sss..s....sss.ss....s......s.sssssss....\
    ss..ssss.sssss.ssss.s.sssssssssssssss.............\
    CC...CCCcCC....cc.c.Cccc......CC...cc...C.cc.cCc..\
    C....cc...C.CCcccCccCcccccc.C.C.C.cCCcCcCc...cc.c.\
    Ccc..CcCc.C.cccCc.c..cc.c.cc.cCCcccccccCcccccCcccc\
    CCc.ccCcc.Cc.c..c.c.CC..ccccc.Cc...Cc.......Cc....\
    .cCCCCcCcCC....CC.CCCC..CCCCCCCcC...C.C.CCcCcccccc\
    CcCccCCcccCCccc.ccccC.ccc.cccc.ccccCcccCCccccc.ccc\
    DD.D.DD.ddD.D..dD...Dddd......D....d.........dDd..\
    Ddd..d......dDdDdDddDDd.ddddDdDdD.ddDd.dDd.d.dd.d.\
    Ddd..DdDd.D.dddDd.d...d.d.dd.dDdDdDdDDdDddddd.dddd\
    DDd.ddDdd.Dd.dd.ddd.D...dd.dd.Dd.DDDDDD.D...DdDd..\
    .DD.......DDDDDDdDD..DdD.DDdDdDdDdd.....Dd..d.D...\
    Dd..dDdddd.ddddDddddD.ddd.dddd.ddddDdddDDddddddddd\
    .s.s.s.s.s..........Ccccccccc.....................\
    ..........D.......................................\
    ..................................................\
    ........................................n.........\
    ..................................................\
    ..................................................";

// The table's letter for a code; for any number over 999 a dot.
fn letter_of(code: u64) -> u8
    ensures { entry_meant result ≡ entry_of code }
{
    if code > 999 {
        return b'.';
    }
    CLASSES[code as usize]
}

// The class that a letter of the table stands for.
#[tactic(auto, unfolding(crate::specs::ClassMeaning::entry_meant))]
fn class_of(letter: u8) -> CodeClass
    ensures { class_meant result ≡ entry_meant letter }
{
    match letter {
        b's' => CodeClass::Status,
        b'C' => CodeClass::CreditSummary,
        b'c' => CodeClass::CreditDetail,
        b'D' => CodeClass::DebitSummary,
        b'd' => CodeClass::DebitDetail,
        b'n' => CodeClass::NonMonetary,
        _ => CodeClass::Unlisted,
    }
}

// What the list says of a code, whatever the number; over 999 none is listed.
pub fn code_class(code: u64) -> CodeClass
    ensures { class_meant result ≡ entry_of code }
{
    class_of(letter_of(code))
}
