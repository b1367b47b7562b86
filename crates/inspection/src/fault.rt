use store::fault::StoreFault;

// Why an image is not told as text.
#[derive(Clone, Copy)]
pub enum InspectFault {
    // The bytes are no image.
    Refused(StoreFault),
    // There is no memory for the text.
    NoMemory,
}
