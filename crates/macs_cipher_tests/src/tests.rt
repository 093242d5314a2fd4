mod aes;
mod fields;
mod gcm;
mod ghash;
mod planes;
