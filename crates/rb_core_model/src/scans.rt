//! The scans of a path.
ghost use Rattle.std.specs.Prelude.{◌≡◌, IfOk};
ghost use Rattle.std.specs.Option.{option_map, option_copied};
ghost use Rattle.rb_core_model.specs.Machine.{no_scans, scan_of, with_scan};
ghost use Rattle.rb_core_model.specs.Scan.{Scan};

use crate::path_scan::Scan;
use rb_base::Part;
use std::alloc::{AllocError, Allocator, Global};
use std::marker::Model;

/// The last scan of each part of a path.
#[derive(Drop)]
pub struct Scans<A: Allocator = Global> {
    packets: Option<Scan<A>>,
    channel: Option<Scan<A>>,
}

impl<A: Allocator> Model for Scans<A> {
    ghost use Rattle.std.specs.Prelude.{◌≡◌};
    ghost use Rattle.std.specs.Option.{option_map, ForSome};
    ghost use Rattle.rb_base.specs.declared.gate.Part.TheVariants.{Packets, Channel};
    ghost use Rattle.rb_core_model.specs.Machine as machines;
    ghost use Rattle.rb_core_model.specs.Scan.{Scan};

    ghost Value = { machines.Scans };

    ghost view = { λ s. record { packets = option_map (λ (x : Scan). x.view) s.packets; channel = option_map (λ (x : Scan). x.view) s.channel } };

    ghost invariant = { λ s. ForSome s.packets (λ (x : Scan). x.part ≡ Packets) × ForSome s.channel (λ (x : Scan). x.part ≡ Channel) };
}

impl<A: Allocator> Scans<A> {
    /// The scans of a path of which nothing was scanned.
    pub fn new() -> Scans<A>
        ensures { result ≡ no_scans }
    {
        Scans {
            packets: None,
            channel: None,
        }
    }

    /// The last scan of a part; None where it was never scanned.
    pub fn of(&self, part: Part) -> Option<&Scan<A>>
        ensures { option_copied result ≡ option_map (λ v. record { view = v; part = part }) (scan_of self.now part) }
    {
        match part {
            Part::Packets => self.packets.as_ref(),
            Part::Channel => self.channel.as_ref(),
        }
    }

    /// Puts a scan in the place of the last one of its part.
    pub fn put(&mut self, scan: Scan<A>)
        ensures { self.new ≡ with_scan scan.view scan.part self.old }
    {
        match scan.part() {
            Part::Packets => self.packets = Some(scan),
            Part::Channel => self.channel = Some(scan),
        }
    }
}

/// The same scan for one more owner, if there is one.
fn share_last<A: Allocator>(scan: &Option<Scan<A>>) -> Result<Option<Scan<A>>, AllocError>
    ensures { IfOk result (λ copy. copy ≡ scan.now) }
{
    Ok(match scan {
        Some(scan) => Some(scan.share()?),
        None => None,
    })
}

impl<A: Allocator> Scans<A> {
    /// The same scans, for one more owner each. `AllocError` where one has as many owners as can be
    /// counted.
    pub fn copy(&self) -> Result<Scans<A>, AllocError>
        ensures { IfOk result (λ copy. copy ≡ self.now) }
    {
        Ok(Scans {
            packets: share_last(&self.packets)?,
            channel: share_last(&self.channel)?,
        })
    }
}
