// The interface of label orders.
ghost use Rattle.std.specs.Prelude.{◌≡◌};
ghost use Rattle.labels.specs.Labels.{Labels, Lawful};

// A label order: labels of one byte, parties counted from 0, and who may see what. Every function answers from the
// meaning for every input, unknown labels and parties included; none refuses.
pub trait LabelOrder: Copy {
    // The public label. Code that is generic over orders asks `public`, which has a contract.
    const P: u8;

    // What the order means.
    ghost meaning: { Self → Labels };

    // Is this a label of the order?
    fn knows(&self, label: u8) -> bool
        ensures { result ≡ (meaning self.now).known label };

    // How many parties there are.
    fn parties(&self) -> u8
        ensures { result ≡ (meaning self.now).parties };

    // The public label P, open to every party.
    fn public(&self) -> u8
        ensures { result ≡ (meaning self.now).public };

    // The secret label O, open to none.
    fn secret(&self) -> u8
        ensures { result ≡ (meaning self.now).secret };

    // May what is labelled m go where the label is n?
    fn flows(&self, m: u8, n: u8) -> bool
        ensures { result ≡ (meaning self.now).flows m n };

    // The least label to which both flow.
    fn join(&self, m: u8, n: u8) -> u8
        ensures { result ≡ (meaning self.now).join m n };

    // May the party see what has this label?
    fn opens(&self, label: u8, party: u8) -> bool
        ensures { result ≡ (meaning self.now).opens label party };

    ghost lawful: { (o : Self) → Lawful (meaning o) };
}
