//! The gap between heights in which the greatest accepted one is sought.
ghost use Rattle.std.specs.Prelude.{◌≡◌, ◌+◌, ◌<◌, ◌≤◌, ◌-◌, ◌/◌, IfSome, IfNone};

use rb_base::Height;

/// The heights between two others: above a floor, up to which no more is asked, and below a ceiling.
#[derive(Clone, Copy)]
pub struct Gap {
    pub floor: Height,
    pub ceiling: Height,
}

impl Gap {
    /// The height in the middle of the gap; none where there is none between.
    pub fn middle(&self) -> Option<Height>
        ensures inside { IfSome result (λ h. (self.now.floor < h) × (h < self.now.ceiling)) }
        ensures halves { IfSome result (λ h. h ≡ self.now.floor + (self.now.ceiling - self.now.floor) / 2) }
        ensures none { IfNone result (self.now.ceiling ≤ self.now.floor + 1) }
    {
        let (floor, ceiling) = (self.floor.get(), self.ceiling.get());
        if ceiling <= floor + 1 {
            return None;
        }
        Height::new(floor + (ceiling - floor) / 2)
    }
}
