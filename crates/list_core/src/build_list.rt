//! The list of builds, with what each still wants.
ghost use Rattle.std.specs.Prelude.{◌≡◌, ◌||◌, ◌++◌, ◌∷◌, [], not, decimal, filter, flat_map, map};
ghost use Rattle.std.specs.Prelude.{IfOk, OnOk};
ghost use Rattle.std.specs.FinMap as table;
ghost use Rattle.part_core.specs.Catalogue.{part_in};
ghost use Rattle.sheet_core.specs.Sheet.{now_of};
ghost use Rattle.build_core.specs.Builds.{is_open};
ghost use Rattle.desk_core.specs.ShopView.{state_of};
ghost use Rattle.list_core.specs.Amounts.{free_amount};
ghost use Rattle.list_core.specs.BuildList.{bare_build_row, build_fields, build_header, build_line_row};
ghost use Rattle.list_core.specs.FreeAmounts.{AreFree};
ghost use Rattle.list_core.specs.BuildList.{build_list, build_rows, build_rows_by, build_state_name};
ghost use Rattle.list_core.specs.Past.{IsPast};
ghost use Rattle.report_core.specs.Fields.{name_of};
ghost use Rattle.report_core.specs.Lines.{fields_of, lines_of};

use crate::free_amounts::{FreeAmount, free_amounts, free_in};
use crate::past::{Past, Subject, past_fields, past_of};
use crate::rows::push_empty;
use build_core::{Build, BuildState, Shortage};
use desk_core::Shop;
use part_core::Sheet;
use report_core::Report;
use report_core::fields::{amount_field, name_field, number_field, words_line};
use report_core::shortage::wants_of;
use std::alloc::{AllocError, Global};
use yard_core::rows_in_order;

/// The word for a state.
pub(crate) fn build_state_name(state: BuildState) -> &'static str
    ensures { result.now ≡ build_state_name state }
{
    match state {
        BuildState::Pending => "pending",
        BuildState::Production => "in production",
        BuildState::OnHold => "on hold",
        BuildState::Cancelled => "cancelled",
        BuildState::Complete => "complete",
    }
}

/// The list's first row.
fn header(alloc: Global) -> Result<Vec<String>, AllocError>
    ensures { IfOk result (λ row. fields_of row ≡ build_header) }
{
    words_line(
        alloc,
        &[
            "build",
            "part",
            "name",
            "state",
            "wanted",
            "done",
            "line",
            "component",
            "component name",
            "required",
            "allocated",
            "missing",
            "free",
            "key",
            "day",
            "last",
        ],
    )
}

/// What is said of the build itself.
fn build_fields(alloc: Global, shop: &Shop, build: &Build) -> Result<Vec<String>, AllocError>
    ensures { IfOk result (λ row. fields_of row ≡ build_fields (state_of shop.now) build.now) }
{
    let number = number_field(alloc, build.number)?;
    let part = number_field(alloc, build.part)?;
    let name = name_field(alloc, shop.catalogue(), build.part)?;
    let state = String::from_str(alloc, build_state_name(build.state))?;
    let wanted = number_field(alloc, build.quantity)?;
    let done = number_field(alloc, build.done)?;
    Ok(vec![in alloc; number, part, name, state, wanted, done]?)
}

/// What is said of a line of a build's bill that counts.
fn want_fields(
    alloc: Global,
    shop: &Shop,
    found: &Sheet<FreeAmount>,
    want: &Shortage,
) -> Result<Vec<String>, AllocError>
    requires { AreFree (state_of shop.now) (now_of found.now) }
    ensures { IfOk result (λ row. fields_of row ≡
        decimal want.now.line
        ∷ decimal want.now.component
        ∷ name_of (part_in want.now.component (state_of shop.now).parts)
        ∷ decimal want.now.required
        ∷ decimal want.now.allocated
        ∷ decimal want.now.missing
        ∷ decimal (free_amount want.now.component (state_of shop.now))
        ∷ []) }
{
    let line = number_field(alloc, want.line)?;
    let component = number_field(alloc, want.component)?;
    let name = name_field(alloc, shop.catalogue(), want.component)?;
    let required = amount_field(alloc, want.required)?;
    let allocated = amount_field(alloc, want.allocated)?;
    let missing = amount_field(alloc, want.missing)?;
    let free = amount_field(alloc, free_in(shop, found, want.component)?)?;
    Ok(vec![in alloc; line, component, name, required, allocated, missing, free]?)
}

/// The row of what a build wants of a line.
fn build_line_row(
    alloc: Global,
    shop: &Shop,
    found: &Sheet<FreeAmount>,
    past: &Past,
    build: &Build,
    want: &Shortage,
) -> Result<Vec<String>, AllocError>
    requires free { AreFree (state_of shop.now) (now_of found.now) }
    requires past { IsPast Subject.Builds (state_of shop.now) past.now }
    ensures { IfOk result (λ row.
        fields_of row ≡ build_line_row (state_of shop.now) build.now want.now) }
{
    let mut row = build_fields(alloc, shop, build)?;
    let mut fields = want_fields(alloc, shop, found, want)?;
    row.append(&mut fields)?;
    let mut told = past_fields(alloc, past, build.number)?;
    row.append(&mut told)?;
    Ok(row)
}

/// The row of a build that wants nothing.
fn bare_build_row(
    alloc: Global,
    shop: &Shop,
    past: &Past,
    build: &Build,
) -> Result<Vec<String>, AllocError>
    requires { IsPast Subject.Builds (state_of shop.now) past.now }
    ensures { IfOk result (λ row. fields_of row ≡ bare_build_row (state_of shop.now) build.now) }
{
    let mut row = build_fields(alloc, shop, build)?;
    push_empty(alloc, &mut row, 7)?;
    let mut told = past_fields(alloc, past, build.number)?;
    row.append(&mut told)?;
    Ok(row)
}

/// The rows of what a build wants come behind the rows so far.
fn push_want_rows(
    alloc: Global,
    shop: &Shop,
    found: &Sheet<FreeAmount>,
    past: &Past,
    build: &Build,
    wants: &[Shortage],
    rows: &mut Vec<Vec<String>>,
) -> Result<(), AllocError>
    requires free { AreFree (state_of shop.now) (now_of found.now) }
    requires past { IsPast Subject.Builds (state_of shop.now) past.now }
    ensures { OnOk result (lines_of rows.new.items ≡ lines_of rows.old.items
        ++ map (build_line_row (state_of shop.now) build.now) wants.now) }
{
    for want in wants {
        rows.push(build_line_row(alloc, shop, found, past, build, want)?)?;
    }
    Ok(())
}

/// The rows of a build that wants this come behind the rows so far.
fn push_rows_by(
    alloc: Global,
    shop: &Shop,
    found: &Sheet<FreeAmount>,
    past: &Past,
    build: &Build,
    wants: &[Shortage],
    rows: &mut Vec<Vec<String>>,
) -> Result<(), AllocError>
    requires free { AreFree (state_of shop.now) (now_of found.now) }
    requires past { IsPast Subject.Builds (state_of shop.now) past.now }
    ensures { OnOk result (lines_of rows.new.items ≡ lines_of rows.old.items
        ++ build_rows_by (state_of shop.now) build.now wants.now) }
{
    if wants.is_empty() {
        rows.push(bare_build_row(alloc, shop, past, build)?)?;
        return Ok(());
    }
    push_want_rows(alloc, shop, found, past, build, wants, rows)
}

/// The rows of a build come behind the rows so far.
fn push_build_rows(
    alloc: Global,
    shop: &Shop,
    found: &Sheet<FreeAmount>,
    past: &Past,
    build: &Build,
    rows: &mut Vec<Vec<String>>,
) -> Result<(), AllocError>
    requires free { AreFree (state_of shop.now) (now_of found.now) }
    requires past { IsPast Subject.Builds (state_of shop.now) past.now }
    ensures { OnOk result (lines_of rows.new.items
        ≡ lines_of rows.old.items ++ build_rows (state_of shop.now) build.now) }
{
    let wants = wants_of(alloc, shop, build.number)?;
    push_rows_by(alloc, shop, found, past, build, wants.as_slice(), rows)
}

/// The rows of these builds come behind the rows so far.
fn push_builds(
    alloc: Global,
    shop: &Shop,
    found: &Sheet<FreeAmount>,
    past: &Past,
    builds: &[&Build],
    rows: &mut Vec<Vec<String>>,
) -> Result<(), AllocError>
    requires free { AreFree (state_of shop.now) (now_of found.now) }
    requires past { IsPast Subject.Builds (state_of shop.now) past.now }
    ensures { OnOk result (lines_of rows.new.items ≡ lines_of rows.old.items
        ++ flat_map (build_rows (state_of shop.now)) (map (λ b. b.now) builds.now)) }
{
    for build in builds {
        push_build_rows(alloc, shop, found, past, build, rows)?;
    }
    Ok(())
}

/// The builds that the list shows, in order of number.
fn listed_builds(builds: &Sheet<Build>, only_open: bool) -> Result<Vec<&Build>, AllocError>
    ensures { IfOk result (λ listed. map (λ b. b.now) listed.items
        ≡ filter (λ b. not only_open || is_open b.state) (table.values (now_of builds.now))) }
{
    builds.select(|build| !only_open || build.state.is_open())
}

/// The header, and the rows of these builds.
fn rows_of(
    alloc: Global,
    shop: &Shop,
    found: &Sheet<FreeAmount>,
    past: &Past,
    builds: &[&Build],
) -> Result<Vec<Vec<String>>, AllocError>
    requires free { AreFree (state_of shop.now) (now_of found.now) }
    requires past { IsPast Subject.Builds (state_of shop.now) past.now }
    ensures { IfOk result (λ rows. lines_of rows.items ≡ build_header
        ∷ flat_map (build_rows (state_of shop.now)) (map (λ b. b.now) builds.now)) }
{
    let mut rows = vec![in alloc; header(alloc)?]?;
    push_builds(alloc, shop, found, past, builds, &mut rows)?;
    Ok(rows)
}

/// The builds in order of number, each with what it still wants: a row for each line of its bill that counts, or one
/// for the build alone where it wants nothing. If only open ones are asked for, those that are complete or cancelled
/// are left out. It adds up once what is free of each part, and goes over what is kept and over the history once. An
/// error is one of memory.
pub fn build_list(alloc: Global, shop: &Shop, only_open: bool) -> Result<Report, AllocError>
    ensures { IfOk result (λ list. list ≡ build_list only_open (state_of shop.now)) }
{
    let builds = listed_builds(shop.builds().rows(), only_open)?;
    let parts = rows_in_order(shop.catalogue().parts())?;
    let found = free_amounts(alloc, shop, parts.as_slice())?;
    let past = past_of(alloc, shop, Subject::Builds)?;
    let rows = rows_of(alloc, shop, &found, &past, builds.as_slice())?;
    Ok(Report::new(rows))
}
