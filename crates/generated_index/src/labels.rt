//! Labels of terms and documents: a letter, and a number in so many digits.
ghost use Rattle.std.specs.Prelude.{◌≡◌, ◌+◌, ◌<◌, ◌≤◌, ◌∷◌, ◌++◌};
ghost use Rattle.arrayvec.specs.ArrayString.{array_string_len};
ghost use Rattle.generated_index.specs.Generated.{digits};

use arrayvec::ArrayString;

/// A letter and at most seven digits.
pub(crate) type Label = ArrayString<8>;

/// Puts a number in so many digits behind a label, with leading zeros.
fn push_digits(label: &mut Label, count: usize, number: u32)
    requires { array_string_len label.old + count ≤ 8 }
    ensures same { label.new.bytes ≡ label.old.bytes ++ digits count number }
    ensures len { array_string_len label.new ≡ array_string_len label.old + count }
{
    if 0 < count {
        push_digits(label, count - 1, number / 10);
        label.push((b'0' + (number % 10) as u8) as char);
    }
}

/// A letter, and a number in so many digits with leading zeros.
pub(crate) fn label_of(letter: char, count: usize, number: u32) -> Label
    requires letter { letter < 128 }
    requires count { count ≤ 7 }
    ensures { result.bytes ≡ letter ∷ digits count number }
{
    let mut label = Label::new();
    label.push(letter);
    push_digits(&mut label, count, number);
    label
}
