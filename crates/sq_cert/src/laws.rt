// What holds of the texts of certificates.
ghost use Rattle.std.specs.Prelude.{◌≡◌, ◌≢◌, ℕ, List, IsTrue};
ghost use Rattle.sq_cert.specs.Certificates.{Block, certificate, are_spelled};
ghost use Rattle.sq_cert.specs.Refusals.{IsRefused};
ghost use Rattle.sq_cert.specs.declared.fault.ReadFault.{ReadFault};
ghost use Rattle.sq_cert.specs.declared.fault.ReadFault.TheVariants.{NoMemory};

/// Each text is that of at most one list of blocks.
pub fn a_certificate_is_that_of_one_list_of_blocks()
    ensures { (bs cs : List Block) → IsTrue (are_spelled bs) → IsTrue (are_spelled cs)
        → certificate bs ≡ certificate cs → bs ≡ cs }
{}

/// A certificate is refused only for want of memory.
pub fn no_certificate_is_refused()
    ensures { (bs : List Block) (e : ReadFault) → IsTrue (are_spelled bs)
        → IsRefused (certificate bs) e → e ≡ NoMemory }
{}

/// But for want of memory, a text is refused for one cause at most.
pub fn a_text_is_refused_for_one_cause()
    ensures { (text : List ℕ) (e f : ReadFault) → IsRefused text e → IsRefused text f
        → e ≢ NoMemory → f ≢ NoMemory → e ≡ f }
{}
