//! The forms of the commands on builds. Of each command there are its form, the function that makes it of
//! its fields, and its arms in the trait's calls.
ghost use Rattle.std.specs.Prelude.{◌≡◌, codes};
ghost use Rattle.word_core.specs.FormLaws.{rows_fill, rows_made};
ghost use Rattle.word_core.specs.FormTables.{command_by, forms_by};
ghost use Rattle.build_core.specs.BuildForms.{build_back, build_distinct, build_fields};
ghost use Rattle.build_core.specs.BuildForms.{build_forms, build_told, build_verb};

use crate::build_command::BuildCommand;
use part_core::{Field, FieldKind, Fields, Form, Formed, RowKind, form_in};
use std::alloc::{AllocError, Global};
use stock_core::{NewStock, copy_serials};
use yard_core::copy_batch;

const FORMS: &[Form] = &[
    Form {
        verb: "build",
        fields: &[
            ("part", FieldKind::Row(RowKind::Part)),
            ("quantity", FieldKind::Number),
        ],
    },
    Form {
        verb: "issue_build",
        fields: &[("build", FieldKind::Row(RowKind::Build))],
    },
    Form {
        verb: "hold_build",
        fields: &[("build", FieldKind::Row(RowKind::Build))],
    },
    Form {
        verb: "cancel_build",
        fields: &[("build", FieldKind::Row(RowKind::Build))],
    },
    Form {
        verb: "outputs",
        fields: &[
            ("build", FieldKind::Row(RowKind::Build)),
            ("quantity", FieldKind::Number),
            ("batch", FieldKind::MaybeText),
            ("serials", FieldKind::MaybeSerials),
        ],
    },
    Form {
        verb: "complete_output",
        fields: &[
            ("output", FieldKind::Row(RowKind::Item)),
            ("location", FieldKind::Row(RowKind::Location)),
        ],
    },
    Form {
        verb: "cancel_output",
        fields: &[("output", FieldKind::Row(RowKind::Item))],
    },
    Form {
        verb: "scrap_output",
        fields: &[("output", FieldKind::Row(RowKind::Item))],
    },
    Form {
        verb: "allocate_build",
        fields: &[
            ("build", FieldKind::Row(RowKind::Build)),
            ("line", FieldKind::Row(RowKind::Line)),
            ("item", FieldKind::Row(RowKind::Item)),
            ("quantity", FieldKind::Number),
            ("output", FieldKind::MaybeRow(RowKind::Item)),
        ],
    },
    Form {
        verb: "auto_allocate",
        fields: &[
            ("build", FieldKind::Row(RowKind::Build)),
            ("substitutes", FieldKind::Yes),
            ("optional", FieldKind::Yes),
        ],
    },
    Form {
        verb: "complete_build",
        fields: &[("build", FieldKind::Row(RowKind::Build))],
    },
    Form {
        verb: "consume",
        fields: &[("allocation", FieldKind::Row(RowKind::Allocation))],
    },
];

#[tactic(auto, unfolding(crate::specs::BuildForms::build_forms))]
fn new_build(mut fields: Fields) -> Option<BuildCommand>
    ensures { result ≡ command_by build_forms (codes "build") fields }
{
    let part = fields.row(RowKind::Part)?;
    let quantity = fields.number()?;
    fields.end()?;
    Some(BuildCommand::NewBuild { part, quantity })
}

#[tactic(auto, unfolding(crate::specs::BuildForms::build_forms))]
fn issue_build(mut fields: Fields) -> Option<BuildCommand>
    ensures { result ≡ command_by build_forms (codes "issue_build") fields }
{
    let build = fields.row(RowKind::Build)?;
    fields.end()?;
    Some(BuildCommand::IssueBuild { build })
}

#[tactic(auto, unfolding(crate::specs::BuildForms::build_forms))]
fn hold_build(mut fields: Fields) -> Option<BuildCommand>
    ensures { result ≡ command_by build_forms (codes "hold_build") fields }
{
    let build = fields.row(RowKind::Build)?;
    fields.end()?;
    Some(BuildCommand::HoldBuild { build })
}

#[tactic(auto, unfolding(crate::specs::BuildForms::build_forms))]
fn cancel_build(mut fields: Fields) -> Option<BuildCommand>
    ensures { result ≡ command_by build_forms (codes "cancel_build") fields }
{
    let build = fields.row(RowKind::Build)?;
    fields.end()?;
    Some(BuildCommand::CancelBuild { build })
}

#[tactic(auto, unfolding(crate::specs::BuildForms::build_forms))]
fn new_outputs(mut fields: Fields) -> Option<BuildCommand>
    ensures { result ≡ command_by build_forms (codes "outputs") fields }
{
    let build = fields.row(RowKind::Build)?;
    let quantity = fields.number()?;
    let batch = fields.maybe_text()?;
    let serials = fields.maybe_serials()?;
    fields.end()?;
    let new = NewStock {
        quantity,
        batch,
        serials,
    };
    Some(BuildCommand::NewOutputs { build, new })
}

#[tactic(auto, unfolding(crate::specs::BuildForms::build_forms))]
fn complete_output(mut fields: Fields) -> Option<BuildCommand>
    ensures { result ≡ command_by build_forms (codes "complete_output") fields }
{
    let output = fields.row(RowKind::Item)?;
    let location = fields.row(RowKind::Location)?;
    fields.end()?;
    Some(BuildCommand::CompleteOutput { output, location })
}

#[tactic(auto, unfolding(crate::specs::BuildForms::build_forms))]
fn cancel_output(mut fields: Fields) -> Option<BuildCommand>
    ensures { result ≡ command_by build_forms (codes "cancel_output") fields }
{
    let output = fields.row(RowKind::Item)?;
    fields.end()?;
    Some(BuildCommand::CancelOutput { output })
}

#[tactic(auto, unfolding(crate::specs::BuildForms::build_forms))]
fn scrap_output(mut fields: Fields) -> Option<BuildCommand>
    ensures { result ≡ command_by build_forms (codes "scrap_output") fields }
{
    let output = fields.row(RowKind::Item)?;
    fields.end()?;
    Some(BuildCommand::ScrapOutput { output })
}

#[tactic(auto, unfolding(crate::specs::BuildForms::build_forms))]
fn allocate_build(mut fields: Fields) -> Option<BuildCommand>
    ensures { result ≡ command_by build_forms (codes "allocate_build") fields }
{
    let build = fields.row(RowKind::Build)?;
    let line = fields.row(RowKind::Line)?;
    let item = fields.row(RowKind::Item)?;
    let quantity = fields.number()?;
    let output = fields.maybe_row(RowKind::Item)?;
    fields.end()?;
    Some(BuildCommand::AllocateBuild {
        build,
        line,
        item,
        quantity,
        output,
    })
}

#[tactic(auto, unfolding(crate::specs::BuildForms::build_forms))]
fn auto_allocate(mut fields: Fields) -> Option<BuildCommand>
    ensures { result ≡ command_by build_forms (codes "auto_allocate") fields }
{
    let build = fields.row(RowKind::Build)?;
    let with_substitutes = fields.yes()?;
    let with_optional = fields.yes()?;
    fields.end()?;
    Some(BuildCommand::AutoAllocate {
        build,
        with_substitutes,
        with_optional,
    })
}

#[tactic(auto, unfolding(crate::specs::BuildForms::build_forms))]
fn complete_build(mut fields: Fields) -> Option<BuildCommand>
    ensures { result ≡ command_by build_forms (codes "complete_build") fields }
{
    let build = fields.row(RowKind::Build)?;
    fields.end()?;
    Some(BuildCommand::CompleteBuild { build })
}

#[tactic(auto, unfolding(crate::specs::BuildForms::build_forms))]
fn consume(mut fields: Fields) -> Option<BuildCommand>
    ensures { result ≡ command_by build_forms (codes "consume") fields }
{
    let allocation = fields.row(RowKind::Allocation)?;
    fields.end()?;
    Some(BuildCommand::Consume { allocation })
}

impl Formed for BuildCommand {
    ghost forms_of = { forms_by build_forms };

    ghost verb_of = { build_verb };

    ghost fields_of = { build_fields };

    ghost command_of = { command_by build_forms };

    #[tactic(auto, unfolding(crate::specs::BuildForms::build_forms))]
    fn form(verb: &str) -> Option<&'static Form> {
        form_in(FORMS, verb)
    }

    fn verb(&self) -> &'static str {
        match self {
            BuildCommand::NewBuild { .. } => "build",
            BuildCommand::IssueBuild { .. } => "issue_build",
            BuildCommand::HoldBuild { .. } => "hold_build",
            BuildCommand::CancelBuild { .. } => "cancel_build",
            BuildCommand::NewOutputs { .. } => "outputs",
            BuildCommand::CompleteOutput { .. } => "complete_output",
            BuildCommand::CancelOutput { .. } => "cancel_output",
            BuildCommand::ScrapOutput { .. } => "scrap_output",
            BuildCommand::AllocateBuild { .. } => "allocate_build",
            BuildCommand::AutoAllocate { .. } => "auto_allocate",
            BuildCommand::CompleteBuild { .. } => "complete_build",
            BuildCommand::Consume { .. } => "consume",
        }
    }

    fn fields(&self, alloc: Global) -> Result<Vec<Field>, AllocError> {
        match self {
            BuildCommand::NewBuild { part, quantity } => {
                Ok(vec![in alloc; Field::Number(*part), Field::Number(*quantity)]?)
            }
            BuildCommand::IssueBuild { build } => { Ok(vec![in alloc; Field::Number(*build)]?) }
            BuildCommand::HoldBuild { build } => { Ok(vec![in alloc; Field::Number(*build)]?) }
            BuildCommand::CancelBuild { build } => { Ok(vec![in alloc; Field::Number(*build)]?) }
            BuildCommand::NewOutputs { build, new } => {
                let batch = copy_batch(alloc, &new.batch)?;
                let serials = copy_serials(alloc, &new.serials)?;
                Ok(vec![in alloc;
                    Field::Number(*build),
                    Field::Number(new.quantity),
                    Field::MaybeText(batch),
                    Field::MaybeSerials(serials),
                ]?)
            }
            BuildCommand::CompleteOutput { output, location } => {
                Ok(vec![in alloc; Field::Number(*output), Field::Number(*location)]?)
            }
            BuildCommand::CancelOutput { output } => { Ok(vec![in alloc; Field::Number(*output)]?) }
            BuildCommand::ScrapOutput { output } => { Ok(vec![in alloc; Field::Number(*output)]?) }
            BuildCommand::AllocateBuild {
                build,
                line,
                item,
                quantity,
                output,
            } => {
                Ok(vec![in alloc;
                    Field::Number(*build),
                    Field::Number(*line),
                    Field::Number(*item),
                    Field::Number(*quantity),
                    Field::MaybeNumber(*output),
                ]?)
            }
            BuildCommand::AutoAllocate {
                build,
                with_substitutes,
                with_optional,
            } => {
                Ok(vec![in alloc;
                    Field::Number(*build),
                    Field::Yes(*with_substitutes),
                    Field::Yes(*with_optional),
                ]?)
            }
            BuildCommand::CompleteBuild { build } => { Ok(vec![in alloc; Field::Number(*build)]?) }
            BuildCommand::Consume { allocation } => {
                Ok(vec![in alloc; Field::Number(*allocation)]?)
            }
        }
    }

    #[tactic(auto, unfolding(crate::specs::BuildForms::build_forms))]
    fn from_fields(verb: &str, fields: Vec<Field>) -> Option<Self> {
        let fields = Fields::new(fields);
        match verb {
            "build" => new_build(fields),
            "issue_build" => issue_build(fields),
            "hold_build" => hold_build(fields),
            "cancel_build" => cancel_build(fields),
            "outputs" => new_outputs(fields),
            "complete_output" => complete_output(fields),
            "cancel_output" => cancel_output(fields),
            "scrap_output" => scrap_output(fields),
            "allocate_build" => allocate_build(fields),
            "auto_allocate" => auto_allocate(fields),
            "complete_build" => complete_build(fields),
            "consume" => consume(fields),
            _ => None,
        }
    }

    ghost fills = { λ c. rows_fill build_forms (build_verb c) (build_fields c) c (build_back c) };

    ghost back = { build_back };

    ghost made = { rows_made build_verb build_fields build_forms build_told };

    ghost distinct = { build_distinct };
}
