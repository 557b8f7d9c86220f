//! The methods of the root, which are built in.
ghost use Rattle.std.specs.Prelude.{◌≡◌, ◌<◌, ◌+◌, IfOk, IfErr};
ghost use Rattle.arc_class.specs.Classes as classes;
ghost use Rattle.arc_fault.specs.declared.class.ClassFault.TheVariants.{Memory};
ghost use Rattle.arc_class.specs.Table.{built_in_at, built_in_from};

use crate::table::MethodResult;
use arc_ast::tree::{Kind, Sign};
use arc_fault::class::ClassFault;

/// What the built-in method gives.
pub fn built_in_result(sign: Sign, selector: &[u8]) -> Option<Kind>
    ensures { result ≡ classes.built_in_result sign selector.now }
{
    match sign {
        Sign::Class => {
            if selector == b"alloc".as_slice() || selector == b"new".as_slice() {
                Some(Kind::Object)
            } else {
                None
            }
        }
        Sign::Instance => {
            if selector == b"init".as_slice() {
                Some(Kind::Object)
            } else if selector == b"dealloc".as_slice() {
                Some(Kind::Void)
            } else {
                None
            }
        }
    }
}

/// What a message gives that counts owners by hand, and `dealloc`, which no source may send.
pub fn counting_result(selector: &[u8]) -> Option<Kind>
    ensures { result ≡ classes.counting_result selector.now }
{
    if selector == b"retain".as_slice() || selector == b"autorelease".as_slice() {
        Some(Kind::Object)
    } else if selector == b"retainCount".as_slice() {
        Some(Kind::Long)
    } else if selector == b"release".as_slice() || selector == b"dealloc".as_slice() {
        Some(Kind::Void)
    } else {
        None
    }
}

/// The same, with whether it is an object of the class that gets the message.
pub fn built_in_given(sign: Sign, selector: &[u8]) -> Option<MethodResult>
    ensures { result ≡ classes.built_in_given sign selector.now }
{
    match built_in_result(sign, selector) {
        None => None,
        Some(kind) => Some(MethodResult {
            kind,
            class: None,
            related: matches!(kind, Kind::Object),
        }),
    }
}

/// What a message gives that counts owners by hand, where an object is as of `id`.
pub fn counting_given(selector: &[u8]) -> Option<MethodResult>
    ensures { result ≡ classes.counting_given selector.now }
{
    match counting_result(selector) {
        None => None,
        Some(kind) => Some(MethodResult {
            kind,
            class: None,
            related: false,
        }),
    }
}

/// The numbers of the functions that the built-in methods run.
#[derive(Clone, Copy)]
pub struct BuiltIn {
    pub alloc_method: usize,
    pub new_method: usize,
    pub init_method: usize,
    pub dealloc_method: usize,
}

impl BuiltIn {
    /// The numbers from this one on. Memory: so many functions have no numbers.
    pub fn from(first: usize) -> Result<BuiltIn, ClassFault>
        ensures numbered { IfOk result (λ numbers. numbers ≡ built_in_from first) }
        ensures refused { IfErr result (λ fault. fault ≡ Memory) }
        ensures too_many { IfErr result (λ fault. usize.MAX < first + 3) }
    {
        if first > usize::MAX - 3 {
            return Err(ClassFault::Memory);
        }
        Ok(BuiltIn {
            alloc_method: first,
            new_method: first + 1,
            init_method: first + 2,
            dealloc_method: first + 3,
        })
    }

    /// The function that the built-in method with the selector runs.
    pub fn at(&self, sign: Sign, selector: &[u8]) -> Option<usize>
        ensures { result ≡ built_in_at self.now sign selector.now }
    {
        match sign {
            Sign::Class => {
                if selector == b"alloc".as_slice() {
                    Some(self.alloc_method)
                } else if selector == b"new".as_slice() {
                    Some(self.new_method)
                } else {
                    None
                }
            }
            Sign::Instance => {
                if selector == b"init".as_slice() {
                    Some(self.init_method)
                } else if selector == b"dealloc".as_slice() {
                    Some(self.dealloc_method)
                } else {
                    None
                }
            }
        }
    }
}
