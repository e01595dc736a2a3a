//! The voucher that its rows say.
ghost use Rattle.std.specs.Prelude.{◌≡◌, ◌+◌, ◌^◌, ◌<◌, ◌≤◌, [], ◌∷◌, length, take, get_or, ◌↔◌, Some, None, MatchResult, IfOk, IsTrue};
ghost use Rattle.std.specs.List.{AllZip};
ghost use Rattle.csv.specs.Records.{fields_of};
ghost use Rattle.stock_nums.specs.MomentText.{SpellsMoment};
ghost use Rattle.stock_nums.specs.declared.limits.TheConstants.{MAX_LINES};
ghost use Rattle.voucher_import.specs.Kinds.{kind_of, issue_kind};
ghost use Rattle.voucher_import.specs.Reading.{Checks, IsBegun, ReadsRows, rows_in};
ghost use Rattle.voucher_import.specs.RowFaults.{AreOfGroup, FirstWrong, IsWrong, all_fields, start_fields};
ghost use Rattle.voucher_import.specs.Rows.{at_of, do_of};
ghost use Rattle.voucher_import.specs.SheetVouchers.{IsDated, IsVoucher, IsWithinLimits};

use crate::fields::RowFault;
use crate::kinds::{SheetKind, kind_named};
use crate::row_lines::RowLine;
use crate::rows::{AT, COLUMNS, DO, field};
use crate::sheet::{CountSheet, SheetFault, SheetField, SheetVoucher};
use csv::ByteRecord;
use std::alloc::Global;
use stock_model::vouchers::{Purpose, What};
use stock_nums::limits::MAX_LINES;
use stock_nums::lines::Lines;
use stock_nums::moment::Moment;
use stock_nums::moment_text::read_moment;

/// The voucher that these rows say, before which the sheet has so many, with the head.
pub(crate) fn read_voucher(
    alloc: Global,
    before: usize,
    run: &[ByteRecord],
) -> Result<SheetVoucher, SheetFault>
    requires some { 0 < length run.now }
    requires few { before + length run.now < 2 ^ 32 }
    ensures outcome { ReadsRows (rows_in run.now) before (IsVoucher (rows_in run.now)) result }
    ensures limits { IfOk result IsWithinLimits }
{
    let (kind, at) = match read_start(&run[0]) {
        Ok(start) => start,
        Err(field) => {
            return Err(SheetFault::BadRow {
                row: before as u32 + 1,
                field,
            });
        }
    };
    match kind {
        SheetKind::Receipt => {
            let lines = read_lines(alloc, before, run)?;
            Ok(SheetVoucher::Post(What::Receipt { at, lines }))
        }
        SheetKind::Sold => read_issue(alloc, before, run, at, Purpose::Sold),
        SheetKind::Used => read_issue(alloc, before, run, at, Purpose::Used),
        SheetKind::Transfer => {
            let lines = read_lines(alloc, before, run)?;
            Ok(SheetVoucher::Post(What::Transfer { at, lines }))
        }
        SheetKind::Count => {
            let lines = read_lines(alloc, before, run)?;
            Ok(SheetVoucher::Count(CountSheet { at, lines }))
        }
    }
}

/// The issue that these rows say.
fn read_issue(
    alloc: Global,
    before: usize,
    run: &[ByteRecord],
    at: Moment,
    purpose: Purpose,
) -> Result<SheetVoucher, SheetFault>
    requires dated { IsDated (rows_in run.now) (issue_kind purpose) at }
    requires some { 0 < length run.now }
    requires few { before + length run.now < 2 ^ 32 }
    ensures outcome { ReadsRows (rows_in run.now) before (IsVoucher (rows_in run.now)) result }
    ensures limits { IfOk result IsWithinLimits }
{
    let lines = read_lines(alloc, before, run)?;
    Ok(SheetVoucher::Post(What::Issue { at, purpose, lines }))
}

/// The kind and the moment of a voucher, by its first row, or what is wrong with them.
fn read_start(first: &ByteRecord) -> Result<(SheetKind, Moment), SheetField>
    ensures { MatchResult result
        (λ start. FirstWrong (IsWrong [] (fields_of first.now)) start_fields None
        × (kind_of (do_of (fields_of first.now)) ≡ Some start.0) × SpellsMoment (at_of (fields_of first.now)) start.1)
        (λ field. FirstWrong (IsWrong [] (fields_of first.now)) start_fields (Some field)) }
{
    if first.len() != COLUMNS {
        return Err(SheetField::Length);
    }
    let Some(kind) = kind_named(field(first, DO)) else {
        return Err(SheetField::Do);
    };
    match read_moment(field(first, AT)) {
        Ok(at) => Ok((kind, at)),
        Err(_) => Err(SheetField::At),
    }
}

/// The lines that these rows say.
fn read_lines<L: RowLine>(
    alloc: Global,
    before: usize,
    run: &[ByteRecord],
) -> Result<Lines<L>, SheetFault>
    requires begun { IsBegun L.has_kind (rows_in run.now) }
    requires some { 0 < length run.now }
    requires few { before + length run.now < 2 ^ 32 }
    ensures outcome { ReadsRows (rows_in run.now) before (AllZip L.is_line (rows_in run.now)) result }
    ensures count { IfOk result (λ lines. (1 ≤ length lines) × (length lines ≤ MAX_LINES)) }
{
    let mut lines = Lines::new(alloc);
    for place in 0..run.len() {
        match read_line(alloc, run, place, lines.as_slice()) {
            Ok(line) => lines.push(line)?,
            Err(RowFault::Wrong(field)) => {
                return Err(SheetFault::BadRow {
                    row: (before + place + 1) as u32,
                    field,
                });
            }
            Err(RowFault::NoMemory) => return Err(SheetFault::NoMemory),
        }
    }
    Ok(lines)
}

/// The line that the row at a place says, where those before it say these lines.
fn read_line<L: RowLine>(
    alloc: Global,
    run: &[ByteRecord],
    place: usize,
    before: &[L],
) -> Result<L, RowFault>
    requires begun { IsBegun L.has_kind (rows_in run.now) }
    requires within { place < length run.now }
    requires so_far { AllZip L.is_line (take place (rows_in run.now)) before.now }
    ensures { Checks (take place (rows_in run.now)) (get_or (rows_in run.now) place []) all_fields (L.is_line (get_or (rows_in run.now) place [])) result }
{
    let row = &run[place];
    if row.len() != COLUMNS {
        return Err(RowFault::Wrong(SheetField::Length));
    }
    if !is_of_group(&run[0], row) {
        return Err(RowFault::Wrong(SheetField::Group));
    }
    let line = L::read(alloc, row)?;
    if line.repeats(before) {
        return Err(RowFault::Wrong(SheetField::Repeat));
    }
    if before.len() >= MAX_LINES {
        return Err(RowFault::Wrong(SheetField::Many));
    }
    Ok(line)
}

/// Whether a row has the same `do` and the same `at` as the first of its voucher.
fn is_of_group(first: &ByteRecord, row: &ByteRecord) -> bool
    ensures { IsTrue result ↔ AreOfGroup (fields_of first.now) (fields_of row.now) }
{
    field(row, DO) == field(first, DO) && field(row, AT) == field(first, AT)
}
