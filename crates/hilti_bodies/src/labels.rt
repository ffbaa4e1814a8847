//! The labels of a body.
ghost use Rattle.std.specs.Prelude.{◌≡◌, ◌≤◌, IfOk, length};
ghost use Rattle.hilti_base.specs.declared.names.Place.{Place};
ghost use Rattle.hilti_scope.specs.FirstPlaces.{place_of};
ghost use Rattle.hilti_bodies.specs.Sections as spec;

use hilti_base::NoMemory;
use hilti_module::Line;
use hilti_scope::FirstPlaces;
use std::alloc::Global;

/// The labels of a body with the number of the first block of each name, and how many blocks there are.
#[derive(Drop)]
pub struct Labels {
    pub numbers: FirstPlaces,
    pub blocks: usize,
}

/// Whether the first of some lines is a label.
pub fn begins_with_label(lines: &[Line]) -> bool
    ensures { result ≡ spec.begins_with_label lines.now }
{
    match lines.first() {
        Some(Line::Label { .. }) => true,
        _ => false,
    }
}

/// How many blocks have no label: one, unless the body begins with a label.
fn count_unlabelled(lines: &[Line]) -> usize
    ensures count { (close : Place) → result ≡ length (spec.unlabelled lines.now close) }
    ensures few { result ≤ 1 }
{
    if begins_with_label(lines) { 0 } else { 1 }
}

impl Labels {
    /// The labels of the lines of a body, wherever its closing brace stands.
    pub fn of(alloc: Global, lines: &[Line]) -> Result<Labels, NoMemory>
        ensures numbered { IfOk result (λ labels. (close : Place)
            → place_of labels.numbers ≡ spec.block_of (spec.sections lines.now close)) }
        ensures counted { IfOk result (λ labels. (close : Place)
            → labels.blocks ≡ length (spec.sections lines.now close)) }
    {
        let mut numbers = FirstPlaces::new(alloc);
        let mut blocks = count_unlabelled(lines);
        for line in lines {
            match line {
                Line::Label {
                    place: _,
                    name,
                    handlers: _,
                } => {
                    numbers.note(name.bytes.bytes(), blocks)?;
                    blocks += 1;
                }
                Line::Instruction { .. } => {}
            }
        }
        Ok(Labels { numbers, blocks })
    }
}
