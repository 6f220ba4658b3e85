// A line in the making: it stands in a space of its own until the call that writes it is accepted.

#![tactic(auto)]

ghost use Rattle.std.specs.Prelude.{◌≡◌, cond, [], ◌∷◌, ◌+◌, leb, length};
ghost use Rattle.rules.specs.Numbers.{decimal, total_bytes};
ghost use Rattle.rules.specs.Writer.{placed, good_text, sum_given, amount_bytes, item_count_bytes};
ghost use Rattle.base_codes.specs.CodeMeaning.{code_meant};
ghost use Rattle.base_quantities.specs.QuantityMeanings.{sum_meant};
ghost use Rattle.read_wanted.specs.Wants.{wanted_of};
ghost use Rattle.write_line.specs.DraftMeaning.{amount_given, items_given};
ghost use Rattle.write_line.specs.DrawnLine.{drawn_of, room_after, refused_in, code_drawn, field_drawn, text_drawn};

use base_codes::Code;
use base_limits::LONGEST_NAME;
use base_quantities::{Count, Place, Records, Signed, Units};
use base_refusals::Reason;
use read_wanted::Taken;
use read_wanted::want::Want;

// The space of a line in the making: room for a code, and eight fields of 76 bytes with their marks.
pub const LINE_SPACE: usize = 640;

// A line in the making: its space, how many bytes of it stand, and what is wanted next, or that a field was refused.
#[derive(Clone, Copy)]
pub struct Draft {
    pub line: [u8; LINE_SPACE],
    pub len: usize,
    pub taken: Taken,
}

// How many items a summary item stands for: document 01's item count.
#[derive(Clone, Copy)]
pub struct Items(pub u64);

// ---- bytes

// The bytes at a place of out; nothing changed where they don't fit.
pub fn put_at(out: &mut [u8], place: Place, src: &[u8])
    ensures { out.new ≡ cond (leb (place.0 + length src.now) (length out.old)) (placed place.0 src.now out.old) out.old }
{
    if place.0 <= out.len() {
        base_slices::put(&mut out[place.0..], src);
    }
}

// 0 to 76 bytes, none not allowed, no slash first, no trailing blank.
#[tactic(auto, using(crate::proofs::DraftBytes::good_text_is))]
fn is_good_text(t: &[u8]) -> bool
    ensures { result ≡ good_text t.now }
{
    t.len() <= LONGEST_NAME
        && base_digits::all_between(t, b' ', b'~')
        && (t.is_empty() || t[0] != b'/' && t[t.len() - 1] != b' ')
}

// What an amount or none adds.
pub fn sum_given(amount: Option<Signed>) -> Units
    ensures { sum_meant result ≡ sum_given (amount_given amount) }
{
    match amount {
        Some(a) => Units::of(a),
        None => Units::none(),
    }
}

// ---- fields

impl Draft {
    // A line with its code, and this wanted after it.
    pub fn begin(code: Code, want: Want) -> Draft
        ensures { drawn_of result ≡ code_drawn (code_meant code) (wanted_of want) }
    {
        let digits = base_codes::digits_of(code);
        let mut draft = Draft {
            line: [0; LINE_SPACE],
            len: 3,
            taken: Ok(want),
        };
        put_at(&mut draft.line, Place(0), &[digits.0, digits.1, b',']);
        draft
    }

    // The longest field and its mark still fit.
    fn has_room(&self) -> bool
        ensures { result ≡ room_after self.now.len }
    {
        self.len <= LINE_SPACE - LONGEST_NAME - 1
    }

    // A field is refused: no byte stands.
    #[tactic(auto, unfolding(crate::specs::DrawnLine::drawn_of, read_wanted::specs::TakenMeaning::judged_of))]
    fn refuse(&mut self)
        ensures { drawn_of self.new ≡ refused_in self.old.line }
    {
        self.len = 0;
        self.taken = Err(Reason::WrongFieldGiven);
    }

    // A field more, and the mark after it.
    pub fn add(&mut self, f: &[u8], mark: u8)
        ensures { drawn_of self.new ≡ field_drawn f.now mark (drawn_of self.old) }
    {
        let Ok(want) = self.taken else {
            return;
        };
        if !self.has_room() || LONGEST_NAME < f.len() || !read_values::is_clean(f) {
            return self.refuse();
        }
        put_at(&mut self.line, Place(self.len), f);
        self.line[self.len + f.len()] = mark;
        self.len += f.len() + 1;
        self.taken = read_fields::take_field(want, f);
    }

    // An empty field more.
    pub fn add_empty(&mut self, mark: u8)
        ensures { drawn_of self.new ≡ field_drawn [] mark (drawn_of self.old) }
    {
        self.add(&[], mark);
    }

    // A sum's number more. Like the next two that are so marked it stays a call: a line is then drafted where it is handed out, and not copied there.
    #[inline(never)]
    pub fn add_total(&mut self, total: Units, mark: u8)
        ensures { drawn_of self.new ≡ field_drawn (total_bytes (sum_meant total)) mark (drawn_of self.old) }
    {
        let mut space = [0; 21];
        let k = base_numerals::put_total(&mut space, total);
        self.add(&space[..k], mark);
    }

    // A number more.
    #[inline(never)]
    fn add_number(&mut self, n: u64, mark: u8)
        ensures { drawn_of self.new ≡ field_drawn (decimal n) mark (drawn_of self.old) }
    {
        let mut space = [0; 20];
        let k = base_numerals::put_digits(&mut space, n);
        self.add(&space[..k], mark);
    }

    // A count of groups or accounts more.
    pub fn add_count(&mut self, n: Count, mark: u8)
        ensures { drawn_of self.new ≡ field_drawn (decimal n.0) mark (drawn_of self.old) }
    {
        self.add_number(n.0, mark);
    }

    // A record count more.
    pub fn add_records(&mut self, n: Records, mark: u8)
        ensures { drawn_of self.new ≡ field_drawn (decimal n.0) mark (drawn_of self.old) }
    {
        self.add_number(n.0, mark);
    }

    // An amount more, or an empty field where there is none.
    pub fn add_amount(&mut self, amount: Option<Signed>, mark: u8)
        ensures { drawn_of self.new ≡ field_drawn (amount_bytes (amount_given amount)) mark (drawn_of self.old) }
    {
        match amount {
            Some(a) => self.add_total(Units::of(a), mark),
            None => self.add_empty(mark),
        }
    }

    // A number of items more, or an empty field where there is none.
    pub fn add_items(&mut self, count: Option<Items>, mark: u8)
        ensures { drawn_of self.new ≡ field_drawn (item_count_bytes (items_given count)) mark (drawn_of self.old) }
    {
        match count {
            Some(n) => self.add_number(n.0, mark),
            None => self.add_empty(mark),
        }
    }

    // The text's bytes after the last mark; "/" for an empty one.
    #[inline(never)]
    pub fn add_text(&mut self, t: &[u8])
        ensures { drawn_of self.new ≡ text_drawn t.now (drawn_of self.old) }
    {
        if self.taken.is_err() {
            return;
        }
        if !self.has_room() || !is_good_text(t) {
            return self.refuse();
        }
        let bytes: &[u8] = if t.is_empty() { b"/" } else { t };
        put_at(&mut self.line, Place(self.len), bytes);
        self.len += bytes.len();
    }
}
