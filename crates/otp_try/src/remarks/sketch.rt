//! A run as a picture.

ghost use Rattle.std.specs.Prelude.{Bool, true, List, ◌≡◌, ◌++◌, ◌∷◌, [], IfOk, OnOk, length};
ghost use Rattle.otp_try.specs.Sketched.{drawing};
ghost use Rattle.otp_try.specs.Sketched.{moment_of, picture, standing_in, standings_in, supervisors_text};
ghost use Rattle.otp_trial.specs.Played.{now_of};

use otp_text::timeline::{
    Look, Moment, Standing, Standings, moments_in, no_standing, standing_of, write_heads,
    write_supervisor,
};
use otp_trial::{Trial, TriedSupervisor};
use std::alloc::{AllocError, Global};

/// How a supervisor stands at this time, which has a process or not.
#[tactic(auto, unfolding(crate::specs::Sketched::standing_in))]
fn standing_in(
    alloc: Global,
    time: u64,
    seat: &TriedSupervisor,
    is_running: bool,
) -> Result<Standing, AllocError>
    ensures { IfOk result (λ standing. standing ≡ standing_in time seat.now is_running) }
{
    if !is_running {
        return Ok(no_standing(alloc));
    }
    let period = seat.flags().period;
    standing_of(
        alloc,
        seat.rows(),
        seat.kept_restarts(),
        period,
        seat.has_ended(),
        time,
    )
}

/// How these supervisors stand at this time, of which each has a process or not.
fn standings_in(
    alloc: Global,
    time: u64,
    seats: &[TriedSupervisor],
    running: &[bool],
) -> Result<Vec<Standing>, AllocError>
    requires { length running.now ≡ length seats.now }
    ensures { IfOk result (λ standings. standings.items ≡ standings_in time seats.now running.now) }
{
    let mut standings = Vec::new(alloc);
    for place in 0..seats.len() {
        let standing = standing_in(alloc, time, &seats[place], running[place])?;
        standings.push(standing).map_err(|_| AllocError)?;
    }
    Ok(standings)
}

/// How these supervisors stand at this time, once this line of the script was played.
pub fn moment_of(
    alloc: Global,
    line: u64,
    time: u64,
    seats: &[TriedSupervisor],
    running: &[bool],
) -> Result<Moment, AllocError>
    requires { length running.now ≡ length seats.now }
    ensures { IfOk result (λ moment. moment ≡ moment_of line time seats.now running.now) }
{
    let standings = standings_in(alloc, time, seats, running)?;
    Ok(Moment {
        line,
        time,
        standings: Standings::new(standings),
    })
}

/// How the supervisors of a trial stand, once this line of the script was played.
pub fn moment_at(alloc: Global, trial: &Trial, line: u64) -> Result<Moment, AllocError>
    ensures { IfOk result (λ moment. (others : List Bool) × (moment ≡ moment_of line (now_of trial.now) trial.now.seats (true ∷ others))) }
{
    let running = trial.running()?;
    moment_of(alloc, line, trial.now(), trial.seats(), running.as_slice())
}

/// The moments of a run that are not drawn yet.
#[derive(Drop)]
pub struct Sketch {
    alloc: Global,
    /// With the escape sequences of a terminal.
    pub is_coloured: bool,
    /// How many moments stand side by side.
    most: usize,
    pub moments: Vec<Moment>,
}

impl Sketch {
    /// Nothing has happened yet.
    pub fn new(alloc: Global, is_coloured: bool, width: u32) -> Self
        ensures { result.moments.items ≡ [] }
    {
        Sketch {
            alloc,
            is_coloured,
            most: moments_in(width),
            moments: Vec::new(alloc),
        }
    }

    /// Puts a moment behind the others.
    pub fn add(&mut self, moment: Moment) -> Result<(), AllocError>
        ensures { OnOk result (self.new.moments.items ≡ self.old.moments.items ++ moment ∷ []) }
    {
        self.moments.push(moment).map_err(|_| AllocError)
    }

    /// Whether there are as many moments as stand side by side.
    pub fn is_full(&self) -> bool {
        self.moments.len() >= self.most
    }

    /// Appends the lines of these supervisors.
    fn write_supervisors(
        &self,
        seats: &[TriedSupervisor],
        out: &mut Vec<u8>,
    ) -> Result<(), AllocError>
        ensures { OnOk result (out.new.items ≡ out.old.items ++ supervisors_text self.now.is_coloured self.now.moments.items 0 seats.now) }
    {
        for place in 0..seats.len() {
            let seat = &seats[place];
            let look = Look {
                place,
                is_coloured: self.is_coloured,
            };
            write_supervisor(
                self.alloc,
                look,
                seat.path(),
                &seat.flags(),
                self.moments.as_slice(),
                out,
            )?;
        }
        Ok(())
    }

    /// Appends the picture of these supervisors at the moments that are not drawn yet.
    #[tactic(auto, unfolding(crate::specs::Sketched::picture))]
    fn write(&self, seats: &[TriedSupervisor], out: &mut Vec<u8>) -> Result<(), AllocError>
        ensures { OnOk result (out.new.items ≡ out.old.items ++ picture self.now.is_coloured seats.now self.now.moments.items) }
    {
        write_heads(self.alloc, self.moments.as_slice(), out)?;
        self.write_supervisors(seats, out)
    }

    /// Appends the picture of these supervisors at the moments that are not drawn yet, if there are some.
    #[tactic(auto, unfolding(crate::specs::Sketched::drawing))]
    pub fn draw(&self, seats: &[TriedSupervisor], out: &mut Vec<u8>) -> Result<(), AllocError>
        ensures { OnOk result (out.new.items ≡ out.old.items ++ drawing self.now.is_coloured seats.now self.now.moments.items) }
    {
        match self.moments.as_slice() {
            [] => Ok(()),
            [_, ..] => self.write(seats, out),
        }
    }

    /// The moments so far are drawn.
    pub fn clear(&mut self) {
        self.moments.clear();
    }
}
