ghost use Rattle.std.specs.Prelude.{◌≡◌, ◌≢◌, ◌<◌, ◌≤◌, ◌≤ℤ◌, ◌^◌, ℕ, pos, length, IfSome, IfNone, is_some, option_map};
ghost use Rattle.jiff_core.specs.Calendar.{days_from_civil};
ghost use Rattle.jiff_core.specs.Date.{epoch_day};
ghost use Rattle.tape_types.specs.declared.moments.Moment.{Moment};
ghost use Rattle.tape_types.specs.declared.times.Civil.{Civil};
ghost use Rattle.tape_types.specs.TimeParts.{HasPlaces, has_marks};
ghost use Rattle.tape_types.specs.Times.{IsCivil, civil_in, civil_of, civil_text, digits, is_civil, time_text};

use crate::moments::Moment;
use jiff_core::civil::Date;

const SECONDS_OF_DAY: i64 = 86_400;

/// A date of the proleptic Gregorian calendar and a time of day, as the text of a moment
/// shows them: a year of 0 to 9999, a month and a day from 1, and nanoseconds of the second.
#[derive(Clone, Copy)]
pub struct Civil {
    pub year: u16,
    pub month: u8,
    pub day: u8,
    pub hour: u8,
    pub minute: u8,
    pub second: u8,
    pub nanos: u32,
}

/// The text of a moment, as `2024-01-02T03:04:05.000000000Z` (LTFS 2.4 on time stamps).
#[tactic(auto, using(crate::proofs::CivilLemmas::time_text_civil))]
pub fn time_text(at: Moment) -> [u8; 30]
    ensures { result ≡ time_text at }
{
    write_civil(civil_of(at))
}

/// The moment that has this text. There is none unless the text is in the form that
/// `time_text` writes, of a date that exists and a time up to 23:59:59.
pub fn parse_time(text: &[u8]) -> Option<Moment>
    ensures some { IfSome result (λ m. text.now ≡ time_text m) }
    ensures none { IfNone result ((m : Moment) → text.now ≢ time_text m) }
    ensures civil { civil_in text.now ≡ option_map civil_of result }
{
    match read_civil(text) {
        Some(civil) => moment_of(civil),
        None => None,
    }
}

/// Each moment has one date and time of day by the calendar, its text shows these, and no
/// two moments have the same text.
pub fn times_are_civil()
    ensures named { (m : Moment) → (c : Civil) × IsCivil m c }
    ensures once { (m : Moment) (c d : Civil) → IsCivil m c → IsCivil m d → c ≡ d }
    ensures shown { (m : Moment) (c : Civil) → IsCivil m c → time_text m ≡ civil_text c }
    ensures apart { (m n : Moment) → time_text m ≡ time_text n → m ≡ n }
{}

fn civil_of(at: Moment) -> Civil
    ensures { IsCivil at result }
{
    let second = at.secs.rem_euclid(SECONDS_OF_DAY) as u32;
    let date = date_of(at.secs.div_euclid(SECONDS_OF_DAY));
    Civil {
        year: date.year as u16,
        month: date.month,
        day: date.day,
        hour: (second / 3600) as u8,
        minute: (second / 60 % 60) as u8,
        second: (second % 60) as u8,
        nanos: at.nanos,
    }
}

/// The date of a day of the years 0 to 9999, where day 0 is 1 January 1970.
fn date_of(day: i64) -> Date
    requires first { days_from_civil (pos 0) 1 1 ≤ℤ day }
    requires last { day ≤ℤ days_from_civil (pos 9999) 12 31 }
    ensures value { epoch_day result ≡ day }
    ensures year { pos 0 ≤ℤ result.year }
{
    match Date::from_unix_epoch_day(day) {
        Ok(date) => date,
        Err(_) => unreachable!(),
    }
}

fn moment_of(civil: Civil) -> Option<Moment>
    requires { HasPlaces civil }
    ensures some { IfSome result (λ m. IsCivil m civil) }
    ensures none { IfNone result ((m : Moment) → ¬ IsCivil m civil) }
    ensures exists { is_some result ≡ is_civil civil }
{
    if civil.hour > 23 || civil.minute > 59 || civil.second > 59 {
        return None;
    }
    match Date::new(civil.year as i16, civil.month as i8, civil.day as i8) {
        Ok(date) => Some(moment_on(date, civil)),
        Err(_) => None,
    }
}

/// The moment on a date at a time of day.
fn moment_on(date: Date, civil: Civil) -> Moment
    requires places { HasPlaces civil }
    requires year { date.year ≡ pos civil.year }
    requires month { date.month ≡ civil.month }
    requires day { date.day ≡ civil.day }
    requires hour { civil.hour < 24 }
    requires minute { civil.minute < 60 }
    requires second { civil.second < 60 }
    ensures { IsCivil result civil }
{
    let second = u32::from(civil.hour) * 3600
        + u32::from(civil.minute) * 60
        + u32::from(civil.second);
    Moment {
        secs: i64::from(date.to_unix_epoch_day()) * SECONDS_OF_DAY + i64::from(second),
        nanos: civil.nanos,
    }
}

fn write_civil(civil: Civil) -> [u8; 30]
    ensures { result ≡ civil_text civil }
{
    let [y0, y1, y2, y3] = decimal::<4>(u32::from(civil.year));
    let [m0, m1] = decimal::<2>(u32::from(civil.month));
    let [d0, d1] = decimal::<2>(u32::from(civil.day));
    let [h0, h1] = decimal::<2>(u32::from(civil.hour));
    let [i0, i1] = decimal::<2>(u32::from(civil.minute));
    let [s0, s1] = decimal::<2>(u32::from(civil.second));
    let [n0, n1, n2, n3, n4, n5, n6, n7, n8] = decimal::<9>(civil.nanos);
    [
        y0, y1, y2, y3, b'-', m0, m1, b'-', d0, d1, b'T', h0, h1, b':', i0, i1, b':', s0, s1, b'.',
        n0, n1, n2, n3, n4, n5, n6, n7, n8, b'Z',
    ]
}

/// The last `N` decimal digits of a number.
fn decimal<const N: usize>(number: u32) -> [u8; N]
    ensures { result ≡ digits N number }
{
    let mut text = [b'0'; N];
    let mut rest = number;
    for at in (0..N).rev() {
        text[at] = b'0' + (rest % 10) as u8;
        rest /= 10;
    }
    text
}

fn read_civil(text: &[u8]) -> Option<Civil>
    ensures some { IfSome result (λ c. text.now ≡ civil_text c) }
    ensures places { IfSome result HasPlaces }
    ensures none { IfNone result ((c : Civil) → text.now ≢ civil_text c) }
{
    if text.len() != 30 {
        return None;
    }
    if !has_marks(text) {
        return None;
    }
    Some(Civil {
        year: number(&text[0..4])? as u16,
        month: number(&text[5..7])? as u8,
        day: number(&text[8..10])? as u8,
        hour: number(&text[11..13])? as u8,
        minute: number(&text[14..16])? as u8,
        second: number(&text[17..19])? as u8,
        nanos: number(&text[20..29])?,
    })
}

/// Whether the marks between the numbers of a time stand at their places.
fn has_marks(text: &[u8]) -> bool
    requires { length text.now ≡ 30 }
    ensures { result ≡ has_marks text.now }
{
    text[4] == b'-'
        && text[7] == b'-'
        && text[10] == b'T'
        && text[13] == b':'
        && text[16] == b':'
        && text[19] == b'.'
        && text[29] == b'Z'
}

/// The number that a text of decimal digits stands for.
fn number(text: &[u8]) -> Option<u32>
    requires { length text.now ≤ 9 }
    ensures some { IfSome result (λ n. text.now ≡ digits (length text.now) n) }
    ensures fits { IfSome result (λ n. n < 10 ^ length text.now) }
    ensures none { IfNone result ((n : ℕ) → text.now ≢ digits (length text.now) n) }
{
    let mut value = 0;
    for byte in text {
        if !byte.is_ascii_digit() {
            return None;
        }
        value = value * 10 + u32::from(*byte - b'0');
    }
    Some(value)
}
