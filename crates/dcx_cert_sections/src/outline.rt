//! A problem, as far as its certificates show it.
ghost use Rattle.std.specs.Prelude.{◌≡◌, map};
ghost use Rattle.dcx_cert_sections.specs.Outlines.{shown, rows_shown};

use dcx_arena::NodeId;
use dcx_shape::{Name, Shape};
use std::marker::Model;

/// The name and the shape of a variable or a parameter.
#[derive(Drop)]
pub struct Shown {
    /// The name.
    pub name: Name,
    /// The shape.
    pub shape: Shape,
}

/// An atom that has a variable below it, and how many rows its graph has.
#[derive(Clone, Copy)]
pub struct AtomRows {
    /// The atom's node.
    pub node: NodeId,
    /// The number of rows.
    pub rows: u32,
}

/// A problem, as far as its certificates show it.
#[derive(Drop)]
pub struct Outline {
    parameters: Vec<Shown>,
    variables: Vec<Shown>,
    constraints: Vec<Shape>,
    atoms: Vec<AtomRows>,
}

impl Model for Outline {
    ghost use Rattle.dcx_cert_sections.specs.Shown as seen;
    ghost use Rattle.dcx_cert_sections.specs.Outlines.{outline_of};

    ghost Value = { seen.Outline };

    ghost view = { λ o. outline_of o.parameters.items o.variables.items o.constraints.items o.atoms.items };
}

impl Outline {
    ghost use Rattle.dcx_cert_sections.specs.Outlines.{outline_of};

    /// The outline with these parts: parameters and variables in order of declaration, constraints in the order of the
    /// script, atoms in the order of their nodes. Takes no memory.
    pub fn new(
        parameters: Vec<Shown>,
        variables: Vec<Shown>,
        constraints: Vec<Shape>,
        atoms: Vec<AtomRows>,
    ) -> Outline
        ensures { result ≡ outline_of parameters.items variables.items constraints.items atoms.items }
    {
        Outline {
            parameters,
            variables,
            constraints,
            atoms,
        }
    }

    /// The parameters, in order of declaration.
    pub fn parameters(&self) -> &[Shown]
        ensures { map shown result.now ≡ self.now.parameters }
    {
        self.parameters.as_slice()
    }

    /// The variables, in order of declaration.
    pub fn variables(&self) -> &[Shown]
        ensures { map shown result.now ≡ self.now.variables }
    {
        self.variables.as_slice()
    }

    /// The shapes of the constraints, in the order of the script.
    pub fn constraints(&self) -> &[Shape]
        ensures { result.now ≡ self.now.constraints }
    {
        self.constraints.as_slice()
    }

    /// The atoms that have a variable below them, in the order of their nodes.
    pub fn atoms(&self) -> &[AtomRows]
        ensures { map rows_shown result.now ≡ self.now.atoms }
    {
        self.atoms.as_slice()
    }
}
