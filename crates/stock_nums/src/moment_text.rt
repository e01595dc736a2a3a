ghost use Rattle.std.specs.Prelude.{◌≡◌, ◌+◌, ◌*◌, ◌/◌, ◌%◌, ◌<◌, ◌↔◌, ℕ, List, length, slice_set, pos, IsTrue, IfOk, IsErrOf};
ghost use Rattle.jiff.specs.Words.{IsDate};
ghost use Rattle.stock_nums.specs.MomentText.{IsTwoDigits, two_digits, HasMomentShape, IsMomentInRange, SpellsMoment, moment_text};
ghost use Rattle.stock_nums.specs.declared.moment.Moment.{Moment};

use crate::lines::Lines;
use crate::memory::NoMemory;
use crate::moment::Moment;
use jiff::civil::Date;
use std::alloc::Global;

/// Why a text spells no moment.
#[derive(Clone, Copy, Debug, PartialEq, Eq)]
pub enum MomentFault {
    /// The text is not nineteen bytes `YYYY-MM-DDTHH:MM:SS` with ASCII digits.
    Shape,
    /// The calendar has no such date from the year 0001 on, or the day has no such time.
    Range,
}

/// Reads a moment from `YYYY-MM-DDTHH:MM:SS`. It takes no memory.
pub fn read_moment(bytes: &[u8]) -> Result<Moment, MomentFault>
    ensures shape { IsErrOf result MomentFault.Shape ↔ (¬ HasMomentShape bytes.now) }
    ensures range { IsErrOf result MomentFault.Range
        ↔ (HasMomentShape bytes.now × ¬ IsMomentInRange bytes.now) }
    ensures spelled { IfOk result (SpellsMoment bytes.now) }
{
    if !has_moment_shape(bytes) {
        return Err(MomentFault::Shape);
    }
    let year = 100 * u32::from(two_digits(bytes, 0)) + u32::from(two_digits(bytes, 2));
    let month = two_digits(bytes, 5);
    let day = two_digits(bytes, 8);
    let hour = two_digits(bytes, 11);
    let minute = two_digits(bytes, 14);
    let second = two_digits(bytes, 17);
    if !is_date(year, month, day) || hour > 23 || minute > 59 || second > 59 {
        return Err(MomentFault::Range);
    }
    Ok(Moment {
        date: 10_000 * year + 100 * u32::from(month) + u32::from(day),
        second: 3600 * u32::from(hour) + 60 * u32::from(minute) + u32::from(second),
    })
}

/// The text `YYYY-MM-DDTHH:MM:SS` of a moment, which reads back as the moment.
pub fn moment_text(alloc: Global, moment: Moment) -> Result<Lines<u8>, NoMemory>
    ensures text { IfOk result (λ text. text ≡ moment_text moment) }
    ensures spelled { SpellsMoment (moment_text moment) moment }
{
    let mut text = *b"0000-00-00T00:00:00";
    put_two_digits(&mut text, 0, moment.date / 1_000_000);
    put_two_digits(&mut text, 2, moment.date / 10_000 % 100);
    put_two_digits(&mut text, 5, moment.date / 100 % 100);
    put_two_digits(&mut text, 8, moment.date % 100);
    put_two_digits(&mut text, 11, moment.second / 3600);
    put_two_digits(&mut text, 14, moment.second / 60 % 60);
    put_two_digits(&mut text, 17, moment.second % 60);
    Ok(Lines::from_vec(Vec::from_array(alloc, text)?))
}

/// Two texts that spell the same date and second are one text, and a text spells at most one moment.
pub fn moments_have_one_spelling()
    ensures one_spelling { (a b : List ℕ) (m n : Moment) → SpellsMoment a m → SpellsMoment b n →
        m.date ≡ n.date → m.second ≡ n.second → a ≡ b }
    ensures one_moment { (bytes : List ℕ) (m n : Moment) →
        SpellsMoment bytes m → SpellsMoment bytes n → m ≡ n }
{}

/// Whether the bytes are `dddd-dd-ddTdd:dd:dd`, where each d is an ASCII digit.
fn has_moment_shape(bytes: &[u8]) -> bool
    ensures { IsTrue result ↔ HasMomentShape bytes.now }
{
    bytes.len() == 19
        && is_two_digits(bytes, 0)
        && is_two_digits(bytes, 2)
        && bytes[4] == b'-'
        && is_two_digits(bytes, 5)
        && bytes[7] == b'-'
        && is_two_digits(bytes, 8)
        && bytes[10] == b'T'
        && is_two_digits(bytes, 11)
        && bytes[13] == b':'
        && is_two_digits(bytes, 14)
        && bytes[16] == b':'
        && is_two_digits(bytes, 17)
}

/// Whether the bytes at the place and the next are ASCII digits.
fn is_two_digits(bytes: &[u8], at: usize) -> bool
    requires { at + 1 < length bytes.now }
    ensures { IsTrue result ↔ IsTwoDigits bytes.now at }
{
    bytes[at].is_ascii_digit() && bytes[at + 1].is_ascii_digit()
}

/// The number that the two digits from the place spell.
fn two_digits(bytes: &[u8], at: usize) -> u8
    requires within { at + 1 < length bytes.now }
    requires digits { IsTwoDigits bytes.now at }
    ensures spelled { result ≡ two_digits bytes.now at }
    ensures small { result < 100 }
{
    10 * (bytes[at] - b'0') + (bytes[at + 1] - b'0')
}

/// Puts the two digits of a number at the place and the next.
fn put_two_digits(text: &mut [u8], at: usize, number: u32)
    requires within { at + 1 < length text.old }
    requires small { number < 100 }
    ensures { text.new ≡ slice_set (slice_set text.old at (48 + number / 10)) (at + 1) (48 + number % 10) }
{
    text[at] = b'0' + (number / 10) as u8;
    text[at + 1] = b'0' + (number % 10) as u8;
}

/// Whether the calendar has the day, and its year is not 0.
fn is_date(year: u32, month: u8, day: u8) -> bool
    requires year { year < 10000 }
    requires month { month < 100 }
    requires day { day < 100 }
    ensures { IsTrue result ↔ ((0 < year) × IsDate (pos year) (pos month) (pos day)) }
{
    year > 0 && Date::new(year as i16, month as i8, day as i8).is_ok()
}
