ghost use Rattle.draw.specs.Laws.{RampLaws};

// The laws of gradients hold.
pub fn ramp_laws()
    ensures { RampLaws }
{}
