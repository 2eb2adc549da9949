//! A link with parameters in any order.

ghost use Rattle.std.specs.Prelude.{◌≡◌, ◌++◌, [], ◌∷◌, IfOk, string_bytes};
ghost use Rattle.qs_spec.specs.Data.{members_of};
ghost use Rattle.qs_spec.specs.Data as d;
ghost use Rattle.qs_data.specs.write.State.{text_of};
ghost use Rattle.qs_callers.specs.Link.{IsBareLink, link_text};

use serde_qs::{ByWrite, Config, Data, Error, Result, Serialize, Serializer};
use std::alloc::Global;

/// A link that gets its parameters one by one.
#[derive(Drop)]
pub struct Link {
    text: Serializer<ByWrite<Vec<u8>>>,
}

impl Link {
    /// Returns a link to this page, without parameters.
    pub fn to(alloc: Global, page: &str) -> Result<Link>
        ensures { IfOk result (λ link. IsBareLink page.now link) }
    {
        let mut text = Vec::from_slice(alloc, page.as_bytes())?;
        text.push(b'?')?;
        Ok(Link {
            text: Serializer::new(text, Config::new()),
        })
    }

    /// Returns the link with this parameter after the others.
    pub fn with<T: Serialize>(mut self, alloc: Global, name: &str, value: &T) -> Result<Link>
        ensures { IfOk result (λ link. link_text link ≡ link_text self ++ text_of self.text (d.struct (members_of ((name.now, T.datum value.now) ∷ [])))) }
    {
        let parameter = (String::from_str(alloc, name)?, value.to_data(alloc)?);
        let parameter = Data::Struct(vec![in alloc; parameter]?);
        self.text.serialize(alloc, &parameter)?;
        Ok(self)
    }

    /// Returns its text.
    pub fn into_text(self) -> Result<String>
        ensures { IfOk result (λ text. string_bytes text ≡ link_text self) }
    {
        String::from_utf8(self.text.into_sink().into_writer()).map_err(Error::FromUtf8)
    }
}
