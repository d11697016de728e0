// The text that is printed: an answer, and the row if one was drawn. What is put stands behind what stood there.
ghost use Rattle.std.specs.Prelude.{◌≡◌, ◌+◌, ◌<◌, ◌≤◌, ◌++◌, length};
ghost use Rattle.arrayvec.specs.ArrayVec.{array_vec_len, Extends};
ghost use Rattle.io.specs.Digits.{hex_digit_ascii};
ghost use Rattle.rowshow.specs.Text.{hex_text, pixel_text, pixel_text_at, row_text, decimal_text, named_text, newline};
ghost use Rattle.rowshow.specs.Show.{shown_text};

use arrayvec::ArrayVec;
use jokulvisp::JvAnswer;

// The longest has 56 bytes: `done`, ten digits, and the row.
pub type Text = ArrayVec<u8, 64>;

fn digit(value: u8) -> u8
    requires { value < 16 }
    ensures { result ≡ hex_digit_ascii value }
{
    if value < 10 {
        b'0' + value
    } else {
        b'a' + (value - 10)
    }
}

#[tactic(auto, unfolding(crate::specs::Text::hex_text))]
fn put_hex(text: &mut Text, byte: u8)
    requires { array_vec_len text.old + 2 ≤ 64 }
    ensures { Extends text.old (hex_text byte) text.new }
{
    text.push(digit(byte / 16));
    text.push(digit(byte % 16));
}

fn put_word(text: &mut Text, word: &[u8])
    requires { array_vec_len text.old + length word.now ≤ 64 }
    ensures { Extends text.old word.now text.new }
{
    for byte in word {
        text.push(*byte);
    }
}

fn put_decimal(text: &mut Text, number: u32)
    requires { array_vec_len text.old + length (decimal_text number) ≤ 64 }
    ensures { Extends text.old (decimal_text number) text.new }
{
    let mut digits = [0u8; 20];
    let count = io::decimal(number as u64, &mut digits);
    put_word(text, &digits[..count]);
}

// A word, and a number behind it.
#[tactic(auto, using(crate::proofs::Printing::decimal_steps))]
fn put_named(text: &mut Text, word: &[u8], number: u32)
    requires { array_vec_len text.old + (length word.now + 10) ≤ 64 }
    ensures appends { Extends text.old (named_text word.now number) text.new }
    ensures upper_bound { array_vec_len text.new ≤ array_vec_len text.old + (length word.now + 10) }
{
    put_word(text, word);
    put_decimal(text, number);
}

fn put_line(text: &mut Text, word: &[u8], number: u32)
    requires { array_vec_len text.old + (length word.now + 11) ≤ 64 }
    ensures appends { Extends text.old (named_text word.now number ++ newline) text.new }
    ensures upper_bound { array_vec_len text.new ≤ array_vec_len text.old + (length word.now + 11) }
{
    put_named(text, word, number);
    text.push(b'\n');
}

#[derive(Clone, Copy)]
struct Pixel {
    red: u8,
    green: u8,
    blue: u8,
    tag: u8,
}

impl Pixel {
    #[tactic(auto, unfolding(crate::specs::Text::hex_text))]
    fn put(self, text: &mut Text)
        requires { array_vec_len text.old + 9 ≤ 64 }
        ensures { Extends text.old (pixel_text self.red self.green self.blue self.tag) text.new }
    {
        put_hex(text, self.red);
        put_hex(text, self.green);
        put_hex(text, self.blue);
        text.push(b':');
        put_hex(text, self.tag);
    }
}

// The runs of a row of four pixels: three bytes R G B a pixel, and its tag in the second.
#[derive(Clone, Copy)]
pub struct Row {
    pub picture: [u8; 12],
    pub tags: [u8; 4],
}

impl Row {
    fn pixel(&self, k: usize) -> Pixel
        requires { k < 4 }
        ensures { pixel_text result.red result.green result.blue result.tag
            ≡ pixel_text_at self.now.picture self.now.tags k }
    {
        Pixel {
            red: self.picture[3 * k],
            green: self.picture[3 * k + 1],
            blue: self.picture[3 * k + 2],
            tag: self.tags[k],
        }
    }

    // The first pixel, and each other behind a space.
    #[tactic(auto, using(crate::proofs::Printing::row_lengths))]
    fn put(&self, text: &mut Text)
        requires { array_vec_len text.old + 40 ≤ 64 }
        ensures { Extends text.old (row_text self.now.picture self.now.tags) text.new }
    {
        self.pixel(0).put(text);
        for k in 0..3 {
            text.push(b' ');
            self.pixel(k + 1).put(text);
        }
        text.push(b'\n');
    }
}

#[derive(Clone, Copy)]
pub struct Shown {
    pub answer: JvAnswer,
    pub row: Row,
}

impl Shown {
    pub fn text(&self) -> Text
        ensures { result.items ≡ shown_text self.now }
    {
        let mut text = Text::new();
        let JvAnswer {
            number,
            place,
            count,
            ..
        } = self.answer;
        match number {
            0 => {
                put_line(&mut text, b"done ", count);
                self.row.put(&mut text);
            }
            // Document 01: 'Numbers 1 to 4 print `refused N`.'
            1..=4 => put_line(&mut text, b"refused ", number),
            _ => {
                put_named(&mut text, b"fault ", number);
                put_named(&mut text, b" at ", place);
                put_line(&mut text, b" after ", count);
            }
        }
        text
    }
}
