//! How a text from outside is told, such as a file's name: nothing in it acts on the terminal that shows it, or begins
//! a line.

ghost use Rattle.text_words.specs.Told.{told};
ghost use Rattle.std.specs.Fmt.{WritesOnOk};
ghost use Rattle.std.specs.Prelude.{◌≡◌, ◌<◌};
ghost use Rattle.text_words.specs.Spelled.{digit_text};

use std::fmt;

/// A text that is told: each of its control characters stands as a backslash and the two lower-case hexadecimal digits
/// of its code, and all else as it is.
#[derive(Clone, Copy)]
pub struct Told<'a>(pub &'a str);

/// A character that is told, likewise.
#[derive(Clone, Copy)]
struct ToldCharacter(char);

/// The lower-case hexadecimal digit of a number below 16.
fn digit(number: u8) -> char
    requires { number < 16 }
    ensures { result ≡ digit_text number }
{
    let code = if number < 10 {
        b'0' + number
    } else {
        b'a' + (number - 10)
    };
    char::from(code)
}

impl fmt::Display for ToldCharacter {
    ghost use Rattle.text_words.specs.Told.{told_character};
    ghost use Rattle.std.specs.Prelude.{Some};

    ghost output = { λ told. Some (told_character told.0) };

    fn fmt<W: fmt::Write>(&self, f: &mut fmt::Formatter<W>) -> fmt::Result {
        if !self.0.is_control() {
            return f.write_char(self.0);
        }
        let code = self.0 as u32;
        f.write_char('\\')?;
        f.write_char(digit((code / 16 % 16) as u8))?;
        f.write_char(digit((code % 16) as u8))
    }
}

/// Writes a text as it is told.
fn write_told<W: fmt::Write>(text: &str, f: &mut fmt::Formatter<W>) -> fmt::Result
    ensures { WritesOnOk W.write_str_gives f.old result (told text.now) f.new }
{
    for character in text.chars() {
        f.write(ToldCharacter(character))?;
    }
    Ok(())
}

impl<'a> fmt::Display for Told<'a> {
    ghost use Rattle.text_words.specs.Told.{told};
    ghost use Rattle.std.specs.Prelude.{Some};

    ghost output = { λ text. Some (told text.0.now) };

    fn fmt<W: fmt::Write>(&self, f: &mut fmt::Formatter<W>) -> fmt::Result {
        write_told(self.0, f)
    }
}
