//! A program that is written over for box after box.

ghost use Rattle.std.specs.Prelude.{◌≡◌, IfOk, OnOk};
ghost use Rattle.pool_model.specs.Network.{net_of};
ghost use Rattle.box_space.specs.Views.{IsView, shown_box};
ghost use Rattle.box_space.specs.declared.coordinates.Form as forms;
ghost use Rattle.dual_rounding.specs.Programs.{IsProgramOf, IsOfNetwork, IsOver, form_rows, numbers};

use crate::program::{blank, write};
use blend_network::Network;
use box_space::{BoxView, Form, LinRow};
use edge_io::Memory;
use linear_program::Lp;
use std::alloc::Global;
use std::marker::Model;

/// The program of a box, kept with the memory that the next box's is written in: boxes of one network have the same rows, and
/// only their coefficients and the ends of variables differ.
#[derive(Drop)]
pub struct Relaxation {
    program: Lp,
    row: LinRow,
}

impl Model for Relaxation {
    ghost use Rattle.linear_program.specs.declared.lp.Lp as programs;

    ghost Value = { programs.Lp };

    ghost view = { λ r. r.program };
}

impl Relaxation {
    /// The program of a form over a box, as [`crate::lp_of`] gives it.
    pub fn new(alloc: Global, net: &Network, form: Form, v: &BoxView) -> Result<Relaxation, Memory>
        requires { IsView (net_of net.now) v.now }
        ensures program { IfOk result (IsProgramOf (net_of net.now) form (shown_box v.now)) }
        ensures network { IfOk result (IsOfNetwork (net_of net.now)) }
    {
        let mut relaxation = Relaxation {
            program: blank(alloc, net, form)?,
            row: LinRow::new(alloc)?,
        };
        relaxation.move_to(net, v)?;
        Ok(relaxation)
    }

    /// The program, to be solved.
    pub fn program(&self) -> &Lp
        ensures { result.now ≡ self.now }
    {
        &self.program
    }

    /// Writes the program of another box over the one that stands. Where that was a program of a form, it is exactly what
    /// [`crate::lp_of`] gives of that form over the new box. Where memory fails the program is that of no box, but the
    /// next one can still be written over it.
    pub fn move_to(&mut self, net: &Network, v: &BoxView) -> Result<(), Memory>
        requires view { IsView (net_of net.now) v.now }
        requires network { IsOfNetwork (net_of net.now) self.old }
        // Promise: The program of a box has exactly the form's rows, as the catalogue has them, and the ends and costs of all variables
        ensures program { (form : forms.Form) → numbers self.old ≡ form_rows (net_of net.now) form
            → OnOk result (IsProgramOf (net_of net.now) form (shown_box v.now) self.new) }
        ensures over { OnOk result (IsOver (net_of net.now) (shown_box v.now) self.new) }
        ensures numbers { numbers self.new ≡ numbers self.old }
        ensures network { IsOfNetwork (net_of net.now) self.new }
    {
        write(net, v, &mut self.program, &mut self.row)?;
        Ok(())
    }
}
