// The samples, proved of the rules.
ghost use Rattle.samples.specs.Samples.{samples, AllStand};

// Every sample of the list stands.
pub fn samples_stand()
    ensures { AllStand samples }
{}
