// Bytes put into a lent buffer from its front: a byte, a number in decimal, a name, a line.
// Each method asks that what it writes fits, by one record, which its caller proves; none is exported.

#![tactic(auto)]

ghost use Rattle.std.specs.Prelude.{◌≡◌, ◌∷◌, []};
ghost use Rattle.written.specs.Printed.{decimal, name_of, signed};
ghost use Rattle.pages.specs.Pages.{page, page_of, put, keyed, CanPut};

// A lent buffer, and the place where its next byte goes.
#[derive(Drop)]
pub struct Page<'a> {
    out: &'a mut [u8],
    at: usize,
}

impl<'a> Page<'a> {
    // The buffer at its front.
    pub fn new(out: &'a mut [u8]) -> Page<'a>
        ensures same_buffer { result.out.ghost_name ≡ out.entry.ghost_name }
        ensures front { page_of result ≡ page 0 out.old }
    {
        Page { out, at: 0 }
    }

    // How many bytes were put.
    pub fn len(&self) -> usize
        ensures { result ≡ self.now.at }
    {
        self.at
    }

    // One byte.
    pub fn put_byte(&mut self, b: u8)
        requires { CanPut (b ∷ []) (page_of self.old) }
        ensures same_buffer { self.new.out.ghost_name ≡ self.old.out.ghost_name }
        ensures bytes { page_of self.new ≡ put (b ∷ []) (page_of self.old) }
    {
        self.out[self.at] = b;
        self.at += 1;
    }

    // Bytes, one after another.
    pub fn put_all(&mut self, bytes: &[u8])
        requires { CanPut bytes.now (page_of self.old) }
        ensures same_buffer { self.new.out.ghost_name ≡ self.old.out.ghost_name }
        ensures bytes { page_of self.new ≡ put bytes.now (page_of self.old) }
    {
        // no copy_from_slice: the archive would need memmove from outside
        for b in bytes {
            self.put_byte(*b);
        }
    }

    // The digits of the tenth, if there is one, then the last digit.
    pub fn put_number(&mut self, n: u32)
        requires { CanPut (decimal n) (page_of self.old) }
        ensures same_buffer { self.new.out.ghost_name ≡ self.old.out.ghost_name }
        ensures bytes { page_of self.new ≡ put (decimal n) (page_of self.old) }
    {
        if n >= 10 {
            self.put_number(n / 10);
        }
        self.put_byte(b'0' + (n % 10) as u8);
    }

    // A name's bytes, the lowest first, until nothing but 0 is left.
    pub fn put_name(&mut self, name: u64)
        requires { CanPut (name_of 8 name) (page_of self.old) }
        ensures same_buffer { self.new.out.ghost_name ≡ self.old.out.ghost_name }
        ensures bytes { page_of self.new ≡ put (name_of 8 name) (page_of self.old) }
    {
        let mut rest = name;
        for _ in 0..8u32 {
            if rest == 0 {
                return;
            }
            self.put_byte((rest % 256) as u8);
            rest /= 256;
        }
    }

    // ~ before a term at 0.
    pub fn put_term(&mut self, value: u32, name: u64)
        requires { CanPut (signed value name) (page_of self.old) }
        ensures same_buffer { self.new.out.ghost_name ≡ self.old.out.ghost_name }
        ensures bytes { page_of self.new ≡ put (signed value name) (page_of self.old) }
    {
        if value == 0 {
            self.put_byte(b'~');
        }
        self.put_name(name);
    }

    // A key, a number and the line's end.
    pub fn put_line(&mut self, key: &[u8], n: u32)
        requires { CanPut (keyed key.now (decimal n)) (page_of self.old) }
        ensures same_buffer { self.new.out.ghost_name ≡ self.old.out.ghost_name }
        ensures bytes { page_of self.new ≡ put (keyed key.now (decimal n)) (page_of self.old) }
    {
        self.put_all(key);
        self.put_number(n);
        self.put_byte(b'\n');
    }
}
