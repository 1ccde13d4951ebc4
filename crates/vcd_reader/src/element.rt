//! The words of the body (IEEE 1364-2001 clauses 18.2.1 and 18.2.2).

ghost use Rattle.std.specs.Prelude.{◌≡◌, ◌<◌, ◌≤◌, ℕ, true, false, None, List, [], ◌∷◌, length, take, bytes_eq, if◌then◌else◌, Option};
ghost use Rattle.std.specs.List.{list_all};
ghost use Rattle.vcd_reader.specs.Values.{is_digit};
ghost use Rattle.vcd_reader.specs.Codes.{Code as SpecCode};
ghost use Rattle.vcd_reader.specs.Answer.{Answer, unless};
ghost use Rattle.vcd_reader.specs.Body.{BodyReading, is_back, new_time, recorded, time_fault, time_word, digits_word, dollar_word, goes_off, goes_on, scalar, change, saying, first_word, next_word, last_said, is_passed_letter, is_group_word, begins, said, comment, is_marker, has_begun};
ghost use Rattle.vcd_reader.specs.Hearing.{heard, said_by};
ghost use Rattle.vcd_reader.specs.Holding.{IsTimeDigits, AreDigitsOf, IsSpelling, IsWord, IsReading, IsAtRest, Gives, GivesChange, IsSaid, is_other, has_no_marker};
ghost use Rattle.vcd_reader.specs.declared.entry.Entry.{Entry};
ghost use Rattle.vcd_reader.specs.declared.filter.Filter.{Filter as SpecFilter};
ghost use Rattle.vcd_reader.specs.declared.past.Past.{Past as SpecPast};
ghost use Rattle.vcd_reader.specs.declared.reading.Reading.{Reading as ReadingRow};
ghost use Rattle.vcd_reader.specs.CodeViews.{value_for};
ghost use Rattle.vcd_reader.specs.Header.{END};

use crate::check::fault_if;
use crate::codes::{Code, Codes};
use crate::digits::{Digits, bit_value};
use crate::filter::Filter;
use crate::keyword::END_WORD;
use crate::letters::is_digit;
use crate::past::Past;
use crate::reading::{Begun, Change, Reading, VectorStart};
use crate::says::Says;
use crate::spelling::Spelling;
use crate::time_digits::{TOO_LARGE, TimeDigits};
use crate::word::Word;
use crate::{DumpFault, DumpKind};

/// The widest value that is kept, in bits.
const WIDEST: u32 = 128;

/// The longest identifier code, in bytes.
const LONGEST_CODE: usize = 8;

/// How many stretches a dump can have.
const MOST_STRETCHES: u32 = 1024;

const DUMP_VARS: &[u8] = b"$dumpvars";

const DUMP_ALL: &[u8] = b"$dumpall";

const DUMP_ON: &[u8] = b"$dumpon";

const DUMP_OFF: &[u8] = b"$dumpoff";

const COMMENT: &[u8] = b"$comment";

/// Reads the word of which this was kept, which begins at this byte. Where there is no word, nothing is said.
#[cold]
pub(crate) fn read_kept(
    codes: &Codes,
    filter: Filter<'_>,
    reading: &mut Reading,
    word: &Word,
    at: u64,
) -> Result<Says, DumpFault>
    ensures { (spec : BodyReading) (bytes : List ℕ) → IsReading reading.old spec → IsWord word.now (has_begun spec.begun) bytes → Gives filter.entry result reading.new (last_said codes.now spec at bytes) }
{
    match word {
        Word::None => Ok(Says::Nothing),
        Word::Time(digits) => read_time(digits, reading, at),
        Word::Digits(digits) => read_digits(digits, reading, at),
        Word::Other(spelling) => read_other(codes, filter, reading, spelling, at),
    }
}

/// Reads the word of these bytes, which begins at this byte. Where there is no byte, nothing is said.
#[inline(always)]
pub(crate) fn read_whole(
    codes: &Codes,
    filter: Filter<'_>,
    reading: &mut Reading,
    word: &[u8],
    at: u64,
) -> Result<Says, DumpFault>
    ensures { (spec : BodyReading) → IsReading reading.old spec → Gives filter.entry result reading.new (last_said codes.now spec at word.now) }
{
    match word {
        [digit, code @ ..] if is_digit(*digit) && !reading.has_begun() => {
            let is_heard = read_scalar(codes, filter, &mut reading.change, *digit, code, at);
            saying(is_heard, reading.past.is_on)
        }
        _ => read_any(codes, filter, reading, word, at),
    }
}

/// Reads the word of these bytes, if there are some.
fn read_any(
    codes: &Codes,
    filter: Filter<'_>,
    reading: &mut Reading,
    word: &[u8],
    at: u64,
) -> Result<Says, DumpFault>
    ensures { (spec : BodyReading) → IsReading reading.old spec → Gives filter.entry result reading.new (last_said codes.now spec at word.now) }
{
    if word.is_empty() {
        Ok(Says::Nothing)
    } else if reading.has_begun() {
        read_bytes(codes, filter, reading, word, at)
    } else {
        read_beginning(codes, filter, reading, word, at)
    }
}

/// Reads the word of these bytes, where nothing has begun.
fn read_beginning(
    codes: &Codes,
    filter: Filter<'_>,
    reading: &mut Reading,
    word: &[u8],
    at: u64,
) -> Result<Says, DumpFault>
    ensures { (past : SpecPast) → 0 < length word.now → IsAtRest reading.old past → Gives filter.entry result reading.new (first_word codes.now word.now at past) }
{
    match word {
        [b'#', digits @ ..] => read_time(&TimeDigits::of(digits), reading, at),
        [b'b' | b'B', digits @ ..] => read_digits(&Digits::of(digits), reading, at),
        _ => read_first(codes, filter, reading, word, at),
    }
}

/// A time.
fn read_time(digits: &TimeDigits, reading: &mut Reading, at: u64) -> Result<Says, DumpFault>
    ensures { (filter : SpecFilter) (word : List ℕ) (past : SpecPast) → IsTimeDigits digits.now word → IsAtRest reading.old past → Gives filter result reading.new (time_word word at past) }
{
    check_time(digits, at, reading.past.last)?;
    let says = recorded_time(&reading.past, digits.value);
    reading.past.last = Some(digits.value);
    Ok(says)
}

/// Whether the digits are a time that is not less than the last.
fn check_time(digits: &TimeDigits, at: u64, last: Option<u64>) -> Result<(), DumpFault>
    ensures { (word : List ℕ) → IsTimeDigits digits.now word → result ≡ unless (time_fault last word at) tt }
{
    if !digits.is_some || !digits.is_decimal {
        return Err(DumpFault::at(DumpKind::BadChange, at));
    }
    if digits.value >= TOO_LARGE {
        return Err(DumpFault::at(DumpKind::TimeTooLarge, at));
    }
    fault_if(is_back(last, digits.value), DumpKind::TimeBack, at)
}

fn is_back(last: Option<u64>, time: u64) -> bool
    ensures { result ≡ is_back last time }
{
    match last {
        None => false,
        Some(last) => time < last,
    }
}

/// A time is said where the dump is on and it is another one than the last.
fn recorded_time(past: &Past, time: u64) -> Says
    ensures { (filter : SpecFilter) (reading : ReadingRow) → said_by result reading ≡ heard filter (recorded past.now.is_on (new_time past.now.last time)) }
{
    if past.is_on {
        new_time(past.last, time)
    } else {
        Says::Nothing
    }
}

/// A time is another one than the last.
fn new_time(last: Option<u64>, time: u64) -> Says
    ensures { (filter : SpecFilter) (reading : ReadingRow) → said_by result reading ≡ heard filter (new_time last time) }
{
    match last {
        None => Says::Time(time),
        Some(last) => {
            if time == last {
                Says::Nothing
            } else {
                Says::Time(time)
            }
        }
    }
}

/// The digits of a change, whose code is the next word.
fn read_digits(digits: &Digits, reading: &mut Reading, at: u64) -> Result<Says, DumpFault>
    ensures { (filter : SpecFilter) (word : List ℕ) (letter : ℕ) (past : SpecPast) → AreDigitsOf digits.now word → IsAtRest reading.old past → Gives filter result reading.new (digits_word word (record { at = at; bytes = letter ∷ word }) past) }
{
    if digits.count == 0 || !digits.are_digits {
        return Err(DumpFault::at(DumpKind::BadChange, at));
    }
    reading.begun = Begun::Digits(VectorStart {
        digits: *digits,
        at,
    });
    Ok(Says::Nothing)
}

/// What the last word of a change says, where this was answered, and the dump is on or not.
#[inline(always)]
fn saying(is_heard: Result<bool, DumpFault>, is_on: bool) -> Result<Says, DumpFault>
    ensures { (filter : SpecFilter) (kept : ReadingRow) (past : SpecPast) (answer : Answer (Option Entry)) → GivesChange filter is_heard kept.change answer → IsAtRest kept past → is_on ≡ past.is_on → Gives filter result kept (saying past answer) }
{
    match is_heard {
        Ok(is_heard) => Ok(Says::change(is_on, is_heard)),
        Err(fault) => Err(fault),
    }
}

/// A word that is no time and no digits, or any word where something has begun.
fn read_other(
    codes: &Codes,
    filter: Filter<'_>,
    reading: &mut Reading,
    word: &Spelling,
    at: u64,
) -> Result<Says, DumpFault>
    ensures { (spec : BodyReading) (bytes : List ℕ) → IsReading reading.old spec → is_other (has_begun spec.begun) bytes ≡ true → IsSpelling word.now bytes → Gives filter.entry result reading.new (next_word codes.now spec (record { at = at; bytes = bytes })) }
{
    match word.bytes() {
        Some(bytes) => read_bytes(codes, filter, reading, bytes, at),
        None => read_long(reading, word.first(), at),
    }
}

/// A word of more than nine bytes, of which this is the first: no code, no keyword and no `$end`.
fn read_long(reading: &mut Reading, first: u8, at: u64) -> Result<Says, DumpFault>
    ensures { (filter : SpecFilter) (table : List SpecCode) (spec : BodyReading) (bytes : List ℕ) → IsReading reading.old spec → is_other (has_begun spec.begun) (first ∷ bytes) ≡ true → 8 < length bytes → Gives filter result reading.new (next_word table spec (record { at = at; bytes = first ∷ bytes })) }
{
    match reading.begun {
        Begun::Nothing => read_long_first(reading, first, at),
        Begun::Digits(_) => Err(DumpFault::at(DumpKind::LongCode, at)),
        Begun::Passed => {
            reading.begun = Begun::Nothing;
            Ok(Says::Nothing)
        }
        Begun::Comment => Ok(Says::Nothing),
    }
}

/// Reads a word of more than 8 bytes that begins with this byte, where nothing has begun.
fn read_long_first(reading: &mut Reading, first: u8, at: u64) -> Result<Says, DumpFault>
    ensures { (filter : SpecFilter) (table : List SpecCode) (bytes : List ℕ) (past : SpecPast) → is_marker first ≡ false → 8 < length bytes → IsAtRest reading.old past → Gives filter result reading.new (first_word table (first ∷ bytes) at past) }
{
    if is_digit(first) {
        Err(DumpFault::at(DumpKind::LongCode, at))
    } else if is_passed_letter(first) {
        reading.begun = Begun::Passed;
        Ok(Says::Nothing)
    } else {
        Err(DumpFault::at(DumpKind::BadChange, at))
    }
}

/// A word of these bytes.
fn read_bytes(
    codes: &Codes,
    filter: Filter<'_>,
    reading: &mut Reading,
    bytes: &[u8],
    at: u64,
) -> Result<Says, DumpFault>
    ensures { (spec : BodyReading) → IsReading reading.old spec → is_other (has_begun spec.begun) bytes.now ≡ true → Gives filter.entry result reading.new (next_word codes.now spec (record { at = at; bytes = bytes.now })) }
{
    match &reading.begun {
        Begun::Nothing => read_first(codes, filter, reading, bytes, at),
        Begun::Digits(start) => {
            let is_heard = read_change(
                codes,
                filter,
                &mut reading.change,
                &start.digits,
                start.at,
                bytes,
                at,
            );
            reading.begun = Begun::Nothing;
            saying(is_heard, reading.past.is_on)
        }
        Begun::Passed => {
            reading.begun = Begun::Nothing;
            Ok(Says::Nothing)
        }
        Begun::Comment => Ok(read_comment(reading, bytes)),
    }
}

/// A word of a comment, which `$end` ends.
fn read_comment(reading: &mut Reading, bytes: &[u8]) -> Says
    ensures { (filter : SpecFilter) (past : SpecPast) → IsReading reading.old (record { past = past; begun = comment }) → IsSaid filter result reading.new (if bytes_eq bytes.now END then said None past else begins past comment) }
{
    if bytes == END_WORD {
        reading.begun = Begun::Nothing;
    }
    Says::Nothing
}

/// A word where nothing has begun, and which is no time and no digits.
fn read_first(
    codes: &Codes,
    filter: Filter<'_>,
    reading: &mut Reading,
    bytes: &[u8],
    at: u64,
) -> Result<Says, DumpFault>
    ensures { (past : SpecPast) → has_no_marker bytes.now ≡ true → IsAtRest reading.old past → Gives filter.entry result reading.new (first_word codes.now bytes.now at past) }
{
    let [first, code @ ..] = bytes else {
        return Err(DumpFault::at(DumpKind::BadChange, at));
    };
    if is_digit(*first) {
        let is_heard = read_scalar(codes, filter, &mut reading.change, *first, code, at);
        saying(is_heard, reading.past.is_on)
    } else if is_passed_letter(*first) {
        reading.begun = Begun::Passed;
        Ok(Says::Nothing)
    } else {
        read_dollar(reading, bytes, at)
    }
}

/// Whether a change of a real variable or of a string begins so.
fn is_passed_letter(byte: u8) -> bool
    ensures { result ≡ is_passed_letter byte }
{
    matches!(byte, b'r' | b'R' | b's' | b'S')
}

/// A change to a digit of the code that follows it directly.
#[inline(always)]
fn read_scalar(
    codes: &Codes,
    filter: Filter<'_>,
    kept: &mut Change,
    digit: u8,
    code: &[u8],
    at: u64,
) -> Result<bool, DumpFault>
    ensures { GivesChange filter.entry result kept.new (scalar codes.now digit code.now at) }
{
    if code.is_empty() {
        return Err(DumpFault::at(DumpKind::BadChange, at));
    }
    if code.len() > LONGEST_CODE {
        return Err(DumpFault::at(DumpKind::LongCode, at));
    }
    match codes.find(code) {
        None => Err(DumpFault::at(DumpKind::UnknownCode, at)),
        Some(code) => read_digit(code, filter, kept, digit, at),
    }
}

/// The value of a code that one digit writes.
#[inline(always)]
fn read_digit(
    code: Code,
    filter: Filter<'_>,
    kept: &mut Change,
    digit: u8,
    at: u64,
) -> Result<bool, DumpFault>
    ensures { GivesChange filter.entry result kept.new (value_for code (digit ∷ []) at) }
{
    if code.size != 1 {
        return read_value(code, filter, kept, &Digits::of_one(digit), at);
    }
    if !code.is_read || !filter.hears(code.number) {
        return Ok(false);
    }
    kept.code = code.number;
    kept.value = bit_value(digit);
    Ok(true)
}

/// A word that should begin with a dollar sign.
fn read_dollar(reading: &mut Reading, bytes: &[u8], at: u64) -> Result<Says, DumpFault>
    ensures { (filter : SpecFilter) (past : SpecPast) → IsAtRest reading.old past → Gives filter result reading.new (dollar_word bytes.now at past) }
{
    if is_group_word(bytes) {
        Ok(Says::Nothing)
    } else if bytes == COMMENT {
        reading.begun = Begun::Comment;
        Ok(Says::Nothing)
    } else if bytes == DUMP_OFF {
        Ok(go_off(reading))
    } else if bytes == DUMP_ON {
        go_on(reading, at)
    } else {
        Err(DumpFault::at(DumpKind::BadChange, at))
    }
}

/// Whether the word begins or ends a group of changes.
fn is_group_word(bytes: &[u8]) -> bool
    ensures { result ≡ is_group_word bytes.now }
{
    bytes == DUMP_VARS || bytes == DUMP_ALL || bytes == END_WORD
}

/// The dump goes off. Where it is off, this means nothing.
fn go_off(reading: &mut Reading) -> Says
    ensures { (filter : SpecFilter) (past : SpecPast) → IsAtRest reading.old past → IsSaid filter result reading.new (goes_off past) }
{
    let is_on = reading.past.is_on;
    reading.past.is_on = false;
    if is_on { Says::Off } else { Says::Nothing }
}

/// The dump goes on, where that does not begin a stretch too many. Where it is on, this means nothing.
fn go_on(reading: &mut Reading, at: u64) -> Result<Says, DumpFault>
    ensures { (filter : SpecFilter) (past : SpecPast) → IsAtRest reading.old past → Gives filter result reading.new (goes_on past at) }
{
    if reading.past.is_on {
        return Ok(Says::Nothing);
    }
    if reading.past.stretches >= MOST_STRETCHES {
        return Err(DumpFault::at(DumpKind::Gap, at));
    }
    reading.past.is_on = true;
    reading.past.stretches += 1;
    Ok(Says::On(reading.past.last))
}

/// A change of a code to the value of digits.
fn read_change(
    codes: &Codes,
    filter: Filter<'_>,
    kept: &mut Change,
    digits: &Digits,
    first: u64,
    code: &[u8],
    at: u64,
) -> Result<bool, DumpFault>
    requires { 0 < digits.now.count }
    ensures { (word : List ℕ) → AreDigitsOf digits.now word → GivesChange filter.entry result kept.new (change codes.now word first code.now at) }
{
    if code.len() > LONGEST_CODE {
        return Err(DumpFault::at(DumpKind::LongCode, at));
    }
    match codes.find(code) {
        None => Err(DumpFault::at(DumpKind::UnknownCode, at)),
        Some(code) => read_value(code, filter, kept, digits, first),
    }
}

/// A change of a code to the value of the first `count` bytes, which are digits.
#[inline(always)]
pub(crate) fn read_lanes(
    codes: &Codes,
    filter: Filter<'_>,
    kept: &mut Change,
    digits: &[u8],
    count: usize,
    first: u64,
    code: &[u8],
    at: u64,
) -> Result<bool, DumpFault>
    requires some { 0 < count }
    requires within { count ≤ length digits.now }
    requires digits { list_all is_digit (take count digits.now) ≡ true }
    ensures { GivesChange filter.entry result kept.new (change codes.now (take count digits.now) first code.now at) }
{
    if code.len() > LONGEST_CODE {
        return Err(DumpFault::at(DumpKind::LongCode, at));
    }
    match codes.find(code) {
        None => Err(DumpFault::at(DumpKind::UnknownCode, at)),
        Some(code) => read_lanes_value(code, filter, kept, digits, count, first),
    }
}

/// The value of a code that the first `count` bytes write, which are digits.
#[inline(always)]
fn read_lanes_value(
    code: Code,
    filter: Filter<'_>,
    kept: &mut Change,
    digits: &[u8],
    count: usize,
    first: u64,
) -> Result<bool, DumpFault>
    requires some { 0 < count }
    requires within { count ≤ length digits.now }
    requires digits { list_all is_digit (take count digits.now) ≡ true }
    ensures { GivesChange filter.entry result kept.new (value_for code (take count digits.now) first) }
{
    if count as u64 > u64::from(code.size) {
        return Err(DumpFault::at(DumpKind::VectorTooLong, first));
    }
    if !code.is_read || code.size > WIDEST || !filter.hears(code.number) {
        return Ok(false);
    }
    kept.code = code.number;
    kept.value = Digits::of_front(digits, count).value(code.size as u8);
    Ok(true)
}

/// The value of a code that digits write.
fn read_value(
    code: Code,
    filter: Filter<'_>,
    kept: &mut Change,
    digits: &Digits,
    first: u64,
) -> Result<bool, DumpFault>
    requires { 0 < digits.now.count }
    ensures { (word : List ℕ) → AreDigitsOf digits.now word → GivesChange filter.entry result kept.new (value_for code word first) }
{
    if digits.count > u64::from(code.size) {
        return Err(DumpFault::at(DumpKind::VectorTooLong, first));
    }
    if !code.is_read || code.size > WIDEST || !filter.hears(code.number) {
        return Ok(false);
    }
    kept.code = code.number;
    kept.value = digits.value(code.size as u8);
    Ok(true)
}
