//! The laws of the commands on builds, and of what changes beside builds.
ghost use Rattle.build_core.specs.Beside.{BillsOfOpenBuildsStay, NoneComesForSales, SoundBesideBills, SoundBesideParts};
ghost use Rattle.build_core.specs.Beside.{SoundBesideReleases, SoundBesideYard, SoundWhereOutputsStay};
ghost use Rattle.build_core.specs.BuildMachine.{ChecksAreInOrder, EffectsAreSound, RowsStay};

/// The law that the refusals of each command are checked in the one order of checks.
pub fn checks_are_in_order()
    ensures { ChecksAreInOrder }
{}

/// The law that what passes its checks leaves builds, allocations and stock sound, and only adds to numbers
/// and history.
pub fn effects_are_sound()
    ensures { EffectsAreSound }
{}

/// The law that no command on builds takes a row of builds or of stock away.
pub fn rows_stay()
    ensures { RowsStay }
{}

/// The law that no command on builds brings an allocation for a sale: orders beside it keep theirs.
pub fn none_comes_for_sales()
    ensures { NoneComesForSales }
{}

/// The law that builds stay sound beside what the commands of the catalogue do.
pub fn sound_beside_parts()
    ensures { SoundBesideParts }
{}

/// The law that the commands on bills, which ask for the parts with an open build, leave the bills of these as
/// they are, and builds sound.
pub fn sound_beside_bills()
    ensures bills { BillsOfOpenBuildsStay }
    ensures builds { SoundBesideBills }
{}

/// The law that builds stay sound beside what the commands of the yard do.
pub fn sound_beside_yard()
    ensures { SoundBesideYard }
{}

/// The law that builds stay sound where an allocation is released.
pub fn sound_beside_releases()
    ensures { SoundBesideReleases }
{}

/// The law that builds stay sound beside what leaves their outputs alone and brings no allocation for a build, as
/// the commands on stock and on orders.
pub fn sound_where_outputs_stay()
    ensures { SoundWhereOutputsStay }
{}
