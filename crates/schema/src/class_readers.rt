//! What a configuration says of its object classes.

ghost use Rattle.std.specs.Prelude.{◌≡◌, ◌||◌, ◌<◌, ℕ, length};
ghost use Rattle.schema.specs.Superclasses.{has_number, is_required, is_named, is_extensible};

use crate::conf::Conf;
use values::TypeId;

impl Conf {
    /// The types that an entry of this object class has (MUST), by it or by one of its superclasses (RFC 4512, 2.4), each once.
    pub fn required(&self, class: usize) -> &[TypeId]
        requires { class < length self.now.classes }
        ensures { (t : ℕ) → has_number result.now t ≡ is_required self.now.classes class t }
    {
        self.settled_class(class).required.as_slice()
    }

    /// Whether this object class or one of its superclasses names a type (MUST, MAY), or is extensibleObject (RFC 4512, 2.4 and 4.3).
    pub fn allows(&self, class: usize, t: TypeId) -> bool
        requires { class < length self.now.classes }
        ensures { result ≡ (is_extensible self.now.classes class || is_named self.now.classes class t) }
    {
        let settled = self.settled_class(class);
        settled.extensible || settled.allowed.contains(t)
    }
}
