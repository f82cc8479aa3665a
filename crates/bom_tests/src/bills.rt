//! Bills that rows make: some that are sound, and some for each way not to be.
use bom_core::{Boms, Line, LineFlags, Substitute};
use part_core::{Catalogue, Flags, Id, Name, Part, Seed};
use std::alloc::Global;
use std::test::Fail;

// A template is the part of this number.
const TEMPLATE: Id = 2;

fn part(alloc: Global, number: Id, template: Option<Id>) -> Result<Part, Fail> {
    let name = Name::new(String::from_str(alloc, "part")?).ok_or("no name")?;
    let flags = Flags {
        template: number == TEMPLATE,
        ..Flags::default()
    };
    Ok(Part {
        number,
        name,
        category: None,
        template,
        flags,
        retired: false,
    })
}

// Parts of the numbers 1 to 5, of which 3 is a variant of 2.
fn catalogue(alloc: Global) -> Result<Catalogue, Fail> {
    let mut parts = Vec::new(alloc);
    for number in 1..6 {
        let template = if number == 3 { Some(TEMPLATE) } else { None };
        parts.push(part(alloc, number, template)?)?;
    }
    Ok(Catalogue::assemble(alloc, Seed::new(0), Vec::new(alloc), parts)?)
}

// An inherited line that allows variants.
fn line(number: Id, assembly: Id, component: Id) -> Line {
    Line {
        number,
        assembly,
        component,
        quantity: 1,
        flags: LineFlags {
            inherited: true,
            variants: true,
            ..LineFlags::default()
        },
    }
}

fn substitute(number: Id, line: Id, part: Id) -> Substitute {
    Substitute { number, line, part }
}

// Whether bills are sound that have a line of part 1 with part 2 and one of part 2 with part 5, and this one.
fn is_sound_line(alloc: Global, line_beside: Line) -> Result<bool, Fail> {
    let catalogue = catalogue(alloc)?;
    let lines = vec![in alloc; line(11, 1, 2), line(12, 2, 5), line_beside]?;
    let substitutes = vec![in alloc; substitute(21, 11, 4)]?;
    let boms = Boms::assemble(alloc, Seed::new(0), lines, substitutes)?;
    Ok(boms.is_sound(&catalogue, 100)?)
}

// Whether bills are sound that have those two lines, part 4 as a substitute on the first, and this one.
fn is_sound_substitute(alloc: Global, substitute_beside: Substitute) -> Result<bool, Fail> {
    let catalogue = catalogue(alloc)?;
    let lines = vec![in alloc; line(11, 1, 2), line(12, 2, 5)]?;
    let substitutes = vec![in alloc; substitute(21, 11, 4), substitute_beside]?;
    let boms = Boms::assemble(alloc, Seed::new(0), lines, substitutes)?;
    Ok(boms.is_sound(&catalogue, 100)?)
}

#[test]
fn takes_sound_rows(rt: HostRuntime) -> Result<(), Fail> {
    assert!(rt; is_sound_line(rt.alloc(), line(13, 4, 3))?);
    assert!(rt; is_sound_substitute(rt.alloc(), substitute(22, 12, 4))?);
    Ok(())
}

#[test]
fn refuses_an_unsound_catalogue(rt: HostRuntime) -> Result<(), Fail> {
    let alloc = rt.alloc();
    let boms = Boms::new(alloc, Seed::new(0));
    assert!(rt; boms.is_sound(&catalogue(alloc)?, 6)?);
    assert!(rt; !boms.is_sound(&catalogue(alloc)?, 5)?);
    Ok(())
}

#[test]
fn refuses_lines_out_of_range(rt: HostRuntime) -> Result<(), Fail> {
    let alloc = rt.alloc();
    assert!(rt; !is_sound_line(alloc, line(100, 4, 3))?);
    assert!(rt; !is_sound_line(alloc, line(13, 9, 3))?);
    assert!(rt; !is_sound_line(alloc, line(13, 4, 9))?);
    let mut nothing = line(13, 4, 3);
    nothing.quantity = 0;
    assert!(rt; !is_sound_line(alloc, nothing)?);
    Ok(())
}

#[test]
fn refuses_substitutes_out_of_range(rt: HostRuntime) -> Result<(), Fail> {
    let alloc = rt.alloc();
    assert!(rt; !is_sound_substitute(alloc, substitute(100, 12, 4))?);
    assert!(rt; !is_sound_substitute(alloc, substitute(22, 13, 4))?);
    assert!(rt; !is_sound_substitute(alloc, substitute(22, 12, 9))?);
    Ok(())
}

#[test]
fn refuses_substitutes_for_nothing(rt: HostRuntime) -> Result<(), Fail> {
    let alloc = rt.alloc();
    assert!(rt; !is_sound_substitute(alloc, substitute(22, 11, 4))?);
    assert!(rt; !is_sound_substitute(alloc, substitute(22, 11, 2))?);
    assert!(rt; !is_sound_substitute(alloc, substitute(22, 11, 3))?);
    Ok(())
}

#[test]
fn refuses_a_part_that_contains_itself(rt: HostRuntime) -> Result<(), Fail> {
    let alloc = rt.alloc();
    assert!(rt; !is_sound_line(alloc, line(13, 2, 1))?);
    assert!(rt; !is_sound_line(alloc, line(13, 3, 1))?);
    assert!(rt; !is_sound_line(alloc, line(13, 5, 3))?);
    assert!(rt; !is_sound_line(alloc, line(13, 4, 1))?);
    assert!(rt; !is_sound_substitute(alloc, substitute(22, 12, 1))?);
    Ok(())
}

// How many parts a chain has, and one more.
const LENGTH: u64 = 2000;

// Whether bills are sound in which each part stands in the next, and the last in the middle one where `is_closed`.
fn is_sound_chain(alloc: Global, is_closed: bool) -> Result<bool, Fail> {
    let mut parts = Vec::new(alloc);
    let mut lines = Vec::new(alloc);
    for number in 1..LENGTH {
        parts.push(part(alloc, number, None)?)?;
        if number > 1 {
            lines.push(line(LENGTH + number, number, number - 1))?;
        }
    }
    if is_closed {
        lines.push(line(2 * LENGTH, LENGTH / 2, LENGTH - 1))?;
    }
    let catalogue = Catalogue::assemble(alloc, Seed::new(0), Vec::new(alloc), parts)?;
    let boms = Boms::assemble(alloc, Seed::new(0), lines, Vec::new(alloc))?;
    Ok(boms.is_sound(&catalogue, 3 * LENGTH)?)
}

#[test]
fn decides_long_chains(rt: HostRuntime) -> Result<(), Fail> {
    assert!(rt; is_sound_chain(rt.alloc(), false)?);
    assert!(rt; !is_sound_chain(rt.alloc(), true)?);
    Ok(())
}
