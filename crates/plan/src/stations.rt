// A planned station: what it reads and writes of the image, and its mailbox.
ghost use Rattle.std.specs.Prelude.{◌≡◌};
ghost use Rattle.plan.specs.Stations.{outputs_of, inputs_of, mailbox_of, bare, with_outputs, with_inputs, with_mailbox};

use crate::windows::Window;

#[derive(Clone, Copy)]
pub struct PlannedStation {
    pub(crate) outputs: Window,
    pub(crate) inputs: Window,
    // A number: by the rules length 0 is no mailbox, and a plan's text may say it.
    pub(crate) mailbox: u32,
}

impl PlannedStation {
    // A station with no window and no mailbox.
    pub fn new() -> PlannedStation
        ensures { result ≡ bare }
    {
        PlannedStation {
            outputs: Window::NONE,
            inputs: Window::NONE,
            mailbox: 0,
        }
    }

    // A method for each field: a direction as a parameter would only move the two names into a match.
    pub fn with_outputs(self, window: Window) -> PlannedStation
        ensures { result ≡ with_outputs self window }
    {
        PlannedStation {
            outputs: window,
            ..self
        }
    }

    pub fn with_inputs(self, window: Window) -> PlannedStation
        ensures { result ≡ with_inputs self window }
    {
        PlannedStation {
            inputs: window,
            ..self
        }
    }

    // The length in bytes of both its mailboxes; 0 for none.
    pub fn with_mailbox(self, bytes: u32) -> PlannedStation
        ensures { result ≡ with_mailbox self bytes }
    {
        PlannedStation {
            mailbox: bytes,
            ..self
        }
    }

    pub fn outputs(&self) -> Window
        ensures { result ≡ outputs_of self.now }
    {
        self.outputs
    }

    pub fn inputs(&self) -> Window
        ensures { result ≡ inputs_of self.now }
    {
        self.inputs
    }

    pub fn mailbox(&self) -> u32
        ensures { result ≡ mailbox_of self.now }
    {
        self.mailbox
    }
}
