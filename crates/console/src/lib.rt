// The console loop's one-pass routine: a thin layer over step that changes the device record in place.
#![tactic(auto)]

ghost use Rattle.model.specs.Calls.{step};
ghost use Rattle.store.specs.Modelled.{modelled, Gives};

use store::{Answer, Device};

// Makes the next store of a write or a cleanup; gives step's number, as step itself does, by document 01's form. Refused (1 to 5), it
// leaves device and image as they came.
pub fn pass(device: &mut Device, image: &mut [u8]) -> u16
    ensures { Gives (record { number = result; device = device.new }) image.new (step (modelled device.old) image.old) }
{
    let whole = *device;
    let answer = whole.step(image);
    *device = answer.device;
    answer.number
}

// The same for a caller that holds the device by value: it lends its own record to pass, and its callers need no walk.
pub fn passed(device: Device, image: &mut [u8]) -> Answer
    ensures { Gives result image.new (step (modelled device) image.old) }
{
    let mut held = device;
    let number = pass(&mut held, image);
    Answer {
        number,
        device: held,
    }
}
